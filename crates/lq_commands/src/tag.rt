ghost use Rattle.std.specs.Prelude.{◌≡◌, ◌≤◌, Err, IfOk, None, Some, option_map};
ghost use Rattle.lq_base.specs.Number.{char_count};
ghost use Rattle.lq_base.specs.declared.command.Command.TheVariants as command;
ghost use Rattle.lq_outside.specs.Forms.{Rose};
ghost use Rattle.lq_report.specs.Output.{tagged_text};
ghost use Rattle.lq_tell.specs.declared.status.Status.TheVariants.{DiskFault};
ghost use Rattle.lq_commands.specs.Outputs.{EndsText};
ghost use Rattle.lq_commands.specs.Refusals.{Answers, refusal, untagged};
ghost use Rattle.lq_commands.specs.Works.{CrashesIn, IsKept, IsReady, OnIts, Works};
ghost use Rattle.lq_track.specs.Log.{identity_of};
ghost use Rattle.lq_turns.specs.Script.{last_row, tag_calls};

use crate::checks::{check_lock, last_of, rows_in};
use crate::given::{Given, SESSION};
use crate::running::fault_answer;
use lq_base::{Dialect, Identity, Text, Tracked};
use lq_model::SqlText;
use lq_report::tagged_text;
use lq_run::tag_row;
use lq_store::Store;
use lq_tell::{Done, Status};
use std::alloc::Global;

/// Gives the last row the tag (Liquibase's documentation, "tag").
pub fn tag<S: Store, P: SqlText>(
    alloc: Global,
    given: &Given,
    tag: &Text,
    store: &mut S,
    sql: &P,
) -> Result<Done, Status>
    requires valid { S.valid store.old }
    requires ready { IsReady given.now.options.dialect (S.state store.old) }
    requires sql { P.dialect ≡ given.now.options.dialect }
    requires short { char_count tag.now ≤ 255 }
    ensures valid { S.valid store.new }
    ensures tells { IfOk result (λ done. EndsText (tagged_text tag.now) done) }
    ensures answers { OnIts given.now.options.dialect (S.state store.old)
        (λ database. Answers (refusal (command.Tag tag.now) given.now database) result) }
    ensures refused { OnIts given.now.options.dialect (S.state store.old) (λ database.
        IsKept (refusal (command.Tag tag.now) given.now database) store.old store.new) }
    ensures works { OnIts given.now.options.dialect (S.state store.old) (λ database.
        Works given.now.options.dialect (tag_calls tag.now database) database (S.state store.old)
        result (S.state store.new)) }
    ensures any_moment { OnIts given.now.options.dialect (S.state store.old) (λ database.
        CrashesIn given.now.options.dialect (tag_calls tag.now database) database
        (S.state store.old) (S.crashes store.old) (S.crashes store.new)) }
    ensures later { S.faults store.old ≤ S.faults store.new }
    ensures disk { result ≡ Err DiskFault → Rose (S.faults store.old) (S.faults store.new) }
{
    let dialect = given.options.dialect;
    check_lock(alloc, dialect, store)?;
    let rows = rows_in(alloc, dialect, store)?;
    tag_rows(alloc, dialect, rows.as_slice(), tag, store, sql)
}

// The lock is free: tags the last of the rows.
fn tag_rows<S: Store, P: SqlText>(
    alloc: Global,
    dialect: Dialect,
    rows: &[Tracked],
    tag: &Text,
    store: &mut S,
    sql: &P,
) -> Result<Done, Status>
    requires valid { S.valid store.old }
    requires ready { IsReady dialect (S.state store.old) }
    requires sql { P.dialect ≡ dialect }
    requires short { char_count tag.now ≤ 255 }
    requires rows { OnIts dialect (S.state store.old) (λ database. database.rows ≡ rows.now) }
    ensures valid { S.valid store.new }
    ensures tells { IfOk result (λ done. EndsText (tagged_text tag.now) done) }
    ensures answers { Answers (untagged rows.now) result }
    ensures refused { IsKept (untagged rows.now) store.old store.new }
    ensures works { OnIts dialect (S.state store.old) (λ database.
        Works dialect (tag_calls tag.now database) database (S.state store.old) result
        (S.state store.new)) }
    ensures any_moment { OnIts dialect (S.state store.old) (λ database.
        CrashesIn dialect (tag_calls tag.now database) database (S.state store.old)
        (S.crashes store.old) (S.crashes store.new)) }
    ensures later { S.faults store.old ≤ S.faults store.new }
    ensures disk { result ≡ Err DiskFault → Rose (S.faults store.old) (S.faults store.new) }
{
    let of = last_of(alloc, rows)?;
    tag_last(alloc, dialect, of, tag, store, sql)
}

// Tags the last row, whose changeset this is.
fn tag_last<S: Store, P: SqlText>(
    alloc: Global,
    dialect: Dialect,
    of: Identity,
    tag: &Text,
    store: &mut S,
    sql: &P,
) -> Result<Done, Status>
    requires valid { S.valid store.old }
    requires ready { IsReady dialect (S.state store.old) }
    requires sql { P.dialect ≡ dialect }
    requires short { char_count tag.now ≤ 255 }
    requires last { OnIts dialect (S.state store.old)
        (λ database. option_map identity_of (last_row database.rows) ≡ Some of) }
    ensures valid { S.valid store.new }
    ensures tells { IfOk result (λ done. EndsText (tagged_text tag.now) done) }
    ensures answers { Answers None result }
    ensures works { OnIts dialect (S.state store.old) (λ database.
        Works dialect (tag_calls tag.now database) database (S.state store.old) result
        (S.state store.new)) }
    ensures any_moment { OnIts dialect (S.state store.old) (λ database.
        CrashesIn dialect (tag_calls tag.now database) database (S.state store.old)
        (S.crashes store.old) (S.crashes store.new)) }
    ensures later { S.faults store.old ≤ S.faults store.new }
    ensures disk { result ≡ Err DiskFault → Rose (S.faults store.old) (S.faults store.new) }
{
    let text = tagged_text(alloc, tag.as_str())?;
    let name = tag.copy(alloc)?;
    match tag_row(alloc, SESSION, store, sql, dialect, of, name) {
        Ok(()) => Ok(Done::with(alloc, text)),
        Err(fault) => fault_answer(alloc, fault),
    }
}
