ghost use Rattle.std.specs.Prelude.{◌≡◌, ◌≤◌, Err, IfErr, IfOk, None, OnOk, length};
ghost use Rattle.lq_model.specs.Catalogue.{is_empty};
ghost use Rattle.lq_outside.specs.Forms.{Rose};
ghost use Rattle.lq_report.specs.Output.{cleared_text};
ghost use Rattle.lq_run.specs.Commands.{Leaves};
ghost use Rattle.lq_run.specs.Crashes.{LeftBehind};
ghost use Rattle.lq_store.specs.Calls.{CountsDisk};
ghost use Rattle.lq_tell.specs.declared.status.Status.TheVariants.{DiskFault};
ghost use Rattle.lq_commands.specs.Outputs.{EndsText};
ghost use Rattle.lq_commands.specs.Refusals.{Answers, fault_status, held};
ghost use Rattle.lq_commands.specs.Works.{CrashesIn, IsKept, IsReady, OnIts, RestsFull, Works};
ghost use Rattle.lq_turns.specs.Script.{clear_calls};

use crate::checks::{check_lock, rows_in};
use crate::given::SESSION;
use crate::running::fault_answer;
use lq_base::{Dialect, Tracked};
use lq_model::{SqlText, StoreFault};
use lq_report::cleared_text;
use lq_run::clear_rows;
use lq_store::Store;
use lq_tell::{Done, Status};
use std::alloc::Global;

/// Takes the checksum of each row, where the lock is free; a later update fills it in (Liquibase's
/// documentation, "clear-checksums").
pub fn clear_sums<S: Store, P: SqlText>(
    alloc: Global,
    dialect: Dialect,
    store: &mut S,
    sql: &P,
) -> Result<Done, Status>
    requires valid { S.valid store.old }
    requires ready { IsReady dialect (S.state store.old) }
    requires sql { P.dialect ≡ dialect }
    ensures valid { S.valid store.new }
    ensures tells { IfOk result (λ done. OnIts dialect (S.state store.old)
        (λ database. EndsText (cleared_text (length database.rows)) done)) }
    ensures answers { OnIts dialect (S.state store.old)
        (λ database. Answers (held database) result) }
    ensures refused { OnIts dialect (S.state store.old)
        (λ database. IsKept (held database) store.old store.new) }
    ensures works { OnIts dialect (S.state store.old)
        (λ database. Works dialect (clear_calls database) database
        (S.state store.old) result (S.state store.new)) }
    ensures any_moment { OnIts dialect (S.state store.old)
        (λ database. CrashesIn dialect (clear_calls database) database
        (S.state store.old) (S.crashes store.old) (S.crashes store.new)) }
    ensures later { S.faults store.old ≤ S.faults store.new }
    ensures disk { result ≡ Err DiskFault → Rose (S.faults store.old) (S.faults store.new) }
{
    check_lock(alloc, dialect, store)?;
    let rows = rows_in(alloc, dialect, store)?;
    clear_these(alloc, dialect, rows.as_slice(), store, sql)
}

// The lock is free, and these are the rows.
fn clear_these<S: Store, P: SqlText>(
    alloc: Global,
    dialect: Dialect,
    rows: &[Tracked],
    store: &mut S,
    sql: &P,
) -> Result<Done, Status>
    requires valid { S.valid store.old }
    requires ready { IsReady dialect (S.state store.old) }
    requires sql { P.dialect ≡ dialect }
    requires rows { OnIts dialect (S.state store.old) (λ database. database.rows ≡ rows.now) }
    ensures valid { S.valid store.new }
    ensures tells { IfOk result
        (λ done. EndsText (cleared_text (length rows.now)) done) }
    ensures answers { Answers None result }
    ensures works { OnIts dialect (S.state store.old)
        (λ database. Works dialect (clear_calls database) database
        (S.state store.old) result (S.state store.new)) }
    ensures any_moment { OnIts dialect (S.state store.old)
        (λ database. CrashesIn dialect (clear_calls database) database
        (S.state store.old) (S.crashes store.old) (S.crashes store.new)) }
    ensures later { S.faults store.old ≤ S.faults store.new }
    ensures disk { result ≡ Err DiskFault → Rose (S.faults store.old) (S.faults store.new) }
{
    let text = cleared_text(alloc, rows.len() as u64)?;
    match clear_all(alloc, dialect, rows, store, sql) {
        Ok(()) => Ok(Done::with(alloc, text)),
        Err(fault) => fault_answer(alloc, fault),
    }
}

// Makes the call, where there is a row.
fn clear_all<S: Store, P: SqlText>(
    alloc: Global,
    dialect: Dialect,
    rows: &[Tracked],
    store: &mut S,
    sql: &P,
) -> Result<(), StoreFault>
    requires valid { S.valid store.old }
    requires ready { IsReady dialect (S.state store.old) }
    requires sql { P.dialect ≡ dialect }
    requires rows { OnIts dialect (S.state store.old) (λ database. database.rows ≡ rows.now) }
    ensures valid { S.valid store.new }
    ensures leaves { OnOk result (OnIts dialect (S.state store.old)
        (λ database. Leaves dialect (clear_calls database) database
        (S.state store.old) (S.state store.new))) }
    ensures behind { OnIts dialect (S.state store.old)
        (λ database. LeftBehind dialect (clear_calls database) database
        (S.state store.old) (S.state store.new)) }
    ensures full { IfErr result (λ fault. OnIts dialect (S.state store.old)
        (λ database. RestsFull dialect (clear_calls database) database
        (S.state store.old) (fault_status fault) (S.state store.new))) }
    ensures any_moment { OnIts dialect (S.state store.old)
        (λ database. CrashesIn dialect (clear_calls database) database
        (S.state store.old) (S.crashes store.old) (S.crashes store.new)) }
    ensures faults { CountsDisk result (S.faults store.old) (S.faults store.new) }
{
    if has_none(rows) {
        return Ok(());
    }
    clear_rows(alloc, SESSION, store, sql, dialect)
}

fn has_none(rows: &[Tracked]) -> bool
    ensures { result ≡ is_empty rows.now }
{
    rows.is_empty()
}
