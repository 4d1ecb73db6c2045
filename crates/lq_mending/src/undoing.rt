ghost use Rattle.std.specs.List.{list_all};
ghost use Rattle.std.specs.Prelude.{◌≡◌, ◌≤◌, Err, IfErr, IfOk, None, false, is_some, length, take, true};
ghost use Rattle.laws_repair.specs.Repair.{repair_calls};
ghost use Rattle.lq_kinds.specs.ReadFor.{AreFor};
ghost use Rattle.lq_mending.specs.Mends.{MayRepair, OnLocked, OnMarked};
ghost use Rattle.lq_mending.specs.Comes.{back_refused};
ghost use Rattle.lq_mending.specs.Undoes.{Answers, HasSome, IsPart, Made, OnIts, Passes, TellsBy, TellsOf, answer_of, is_of_calls, refusal, undo_script, unrecorded};
ghost use Rattle.lq_mending.specs.declared.outcome.RepairFault.TheVariants.{Disk};
ghost use Rattle.lq_model.specs.Step.{is_statement};
ghost use Rattle.lq_outside.specs.Forms.{Rose};

use crate::outcome::{RepairFault, Repaired};
use crate::part::{Part, part_of};
use crate::repairing::repair;
use lq_base::{Dialect, Identity, Items, NoMemory, Text, Tracked};
use lq_beside::release_fits;
use lq_expr::Options;
use lq_kinds::Changelog;
use lq_model::SqlText;
use lq_repair::Unrecorded;
use lq_run::End;
use lq_store::Store;
use lq_track::{TrackFault, read_rows};
use std::alloc::Global;

/// The one session of a command that runs alone.
const SESSION: u32 = 1;

/// Takes back the part of a changeset that a stop left without a row, and frees the lock. `last` is
/// the last text of the journal: it tells whether the statement of the lock's mark stands.
///
/// It is refused with `NothingToUndo` where the lock is free, or has no mark of such a part. Then the
/// changelog has to go with the rows. And the mark has to name one changeset that is here and has no
/// row, and each of whose changes is taken back by what is generated.
pub fn undo_unrecorded<S: Store, P: SqlText>(
    alloc: Global,
    options: &Options,
    changelog: &Changelog,
    last: &Option<Text>,
    store: &mut S,
    sql: &P,
) -> Result<Repaired, RepairFault>
    requires valid { S.valid store.old }
    requires ready { HasSome options.now.dialect (S.state store.old) }
    requires sql { P.dialect ≡ options.now.dialect }
    requires read { AreFor options.now.dialect changelog.now }
    ensures valid { S.valid store.new }
    ensures answers { OnIts options.now.dialect (S.state store.old) (λ database.
        Answers (refusal options.now changelog.now database.lock database.rows) result) }
    ensures refused { OnIts options.now.dialect (S.state store.old) (λ database.
        is_some (refusal options.now changelog.now database.lock database.rows) ≡ true
        → store.new ≡ store.old) }
    ensures made { OnIts options.now.dialect (S.state store.old) (λ database.
        Made S.state S.crashes options.now.dialect
        (undo_script options.now changelog.now last.now database)
        database store.old result store.new) }
    ensures tells { OnIts options.now.dialect (S.state store.old) (λ database.
        TellsOf options.now database
        (unrecorded options.now changelog.now last.now database.lock database.rows) result) }
    ensures later { S.faults store.old ≤ S.faults store.new }
    ensures rose { result ≡ Err Disk → Rose (S.faults store.old) (S.faults store.new) }
{
    release_fits();
    match part_in(alloc, options, changelog, last, store, sql) {
        Ok(part) => undo_part(alloc, options.dialect, part, store, sql),
        Err(fault) => Err(fault),
    }
}

// The part that stands, where the checks are passed.
fn part_in<S: Store, P: SqlText>(
    alloc: Global,
    options: &Options,
    changelog: &Changelog,
    last: &Option<Text>,
    store: &S,
    sql: &P,
) -> Result<Part, RepairFault>
    requires valid { S.valid store.now }
    requires ready { HasSome options.now.dialect (S.state store.now) }
    requires sql { P.dialect ≡ options.now.dialect }
    requires read { AreFor options.now.dialect changelog.now }
    ensures passes { OnIts options.now.dialect (S.state store.now) (λ database.
        Passes (refusal options.now changelog.now database.lock database.rows) result) }
    ensures checks { IfErr result (λ e. is_of_calls e ≡ false) }
    ensures part { IfOk result (λ part.
        OnIts options.now.dialect (S.state store.now) (λ database.
        IsPart options.now
        (unrecorded options.now changelog.now last.now database.lock database.rows)
        database.lock part)) }
    ensures stated { IfOk result
        (λ part. list_all (is_statement options.now.dialect) part.statements ≡ true) }
    ensures within { IfOk result (λ part. part.count ≤ length part.statements) }
{
    let rows = rows_in(alloc, options.dialect, store)?;
    let rows = rows.as_slice();
    part_of(alloc, options, changelog, store.lock(), rows, last, sql)
}

/// The rows of tracking in run order.
fn rows_in<S: Store>(alloc: Global, dialect: Dialect, store: &S) -> Result<Items<Tracked>, NoMemory>
    requires valid { S.valid store.now }
    requires ready { HasSome dialect (S.state store.now) }
    ensures { IfOk result
        (λ rows. OnIts dialect (S.state store.now) (λ database. database.rows ≡ rows)) }
{
    match store.look(SESSION) {
        Ok(view) => match read_rows(alloc, dialect, view) {
            Ok(rows) => Ok(rows),
            Err(TrackFault::NotTables | TrackFault::OutOfMemory) => Err(NoMemory),
        },
        Err(_) => Err(NoMemory),
    }
}

// The checks are passed, and this part stands.
fn undo_part<S: Store, P: SqlText>(
    alloc: Global,
    dialect: Dialect,
    part: Part,
    store: &mut S,
    sql: &P,
) -> Result<Repaired, RepairFault>
    requires valid { S.valid store.old }
    requires may { MayRepair dialect (S.state store.old) }
    requires sql { P.dialect ≡ dialect }
    requires stated { list_all (is_statement dialect) part.statements ≡ true }
    requires within { part.count ≤ length part.statements }
    ensures valid { S.valid store.new }
    ensures answers { Answers None result }
    ensures made { OnMarked dialect (S.state store.old) (λ database.
        Made S.state S.crashes dialect
        (repair_calls dialect part.who part.identity (take part.count part.statements) database)
        database store.old result store.new) }
    ensures tells { OnLocked dialect (S.state store.old) (λ database.
        TellsBy part.identity part.count
        (back_refused dialect (take part.count part.statements) database.users) result) }
    ensures later { S.faults store.old ≤ S.faults store.new }
    ensures rose { result ≡ Err Disk → Rose (S.faults store.old) (S.faults store.new) }
{
    let Part {
        who,
        identity,
        statements,
        count,
    } = part;
    let of = Unrecorded {
        dialect,
        who: &who,
        identity: &identity,
    };
    let first = &statements.as_slice()[..count as usize];
    let end = repair(alloc, &of, first, SESSION, store, sql);
    answer_of(identity, count, end)
}

// What the command answers, by how its calls ended.
fn answer_of(of: Identity, many: u64, end: End) -> Result<Repaired, RepairFault>
    ensures { result ≡ answer_of of many end }
{
    match end {
        End::Done => Ok(Repaired {
            identity: of,
            count: many,
        }),
        End::Refused(refused) => Err(RepairFault::Refused(of, refused)),
        End::Disk => Err(RepairFault::Disk),
        End::Full { used, next } => Err(RepairFault::Full { used, next }),
        End::Locked(_) | End::OutOfMemory => Err(RepairFault::OutOfMemory),
    }
}
