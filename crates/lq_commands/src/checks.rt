ghost use Rattle.std.specs.Prelude.{◌≡◌, [], IfErr, IfOk, None, Some, option_map, reverse};
ghost use Rattle.lq_back.specs.Reversal.{AreWays};
ghost use Rattle.lq_commands.specs.Refusals.{Passes, held, if_halts, if_warns, invalid, irreversible, own_halt, own_warning, unready, untagged};
ghost use Rattle.lq_commands.specs.Scripts.{sets_in};
ghost use Rattle.lq_commands.specs.Works.{IsReady, OnIts};
ghost use Rattle.lq_tell.specs.declared.status.Status.TheVariants.{NoTarget};
ghost use Rattle.lq_track.specs.Log.{identity_of};
ghost use Rattle.lq_turns.specs.Faults.{faults};
ghost use Rattle.lq_turns.specs.Script.{rows_kept, rows_undone, last_row};

use crate::given::{Given, SESSION};
use lq_back::{ReverseFault, TakenBack, reversible, rows_to_undo};
use lq_base::{Dialect, Duplicate, Identity, Items, NoMemory, Target, Tracked, Why};
use lq_sets::{faults_of, own_choice};
use lq_store::Store;
use lq_tell::Status;
use lq_track::{TrackFault, read_rows};
use lq_turns::Choice;
use std::alloc::Global;

/// The lock is free.
pub fn check_lock<S: Store>(alloc: Global, dialect: Dialect, store: &S) -> Result<(), Status>
    requires valid { S.valid store.now }
    requires ready { IsReady dialect (S.state store.now) }
    ensures { OnIts dialect (S.state store.now) (λ database. Passes (held database) result) }
{
    let lock = store.lock();
    if lock.locked {
        let held = lock.duplicate(alloc)?;
        return Err(Status::Locked(held));
    }
    Ok(())
}

/// The rows of tracking in run order.
pub fn rows_in<S: Store>(
    alloc: Global,
    dialect: Dialect,
    store: &S,
) -> Result<Items<Tracked>, Status>
    requires valid { S.valid store.now }
    requires ready { IsReady dialect (S.state store.now) }
    ensures rows { IfOk result
        (λ rows. OnIts dialect (S.state store.now) (λ database. database.rows ≡ rows)) }
    ensures passes { Passes None result }
{
    match store.look(SESSION) {
        Ok(view) => match read_rows(alloc, dialect, view) {
            Ok(rows) => Ok(rows),
            Err(TrackFault::NotTables | TrackFault::OutOfMemory) => Err(Status::OutOfMemory),
        },
        Err(_) => Err(Status::OutOfMemory),
    }
}

/// The changelog goes with these rows.
pub fn check_faults(alloc: Global, given: &Given, rows: &[Tracked]) -> Result<(), Status>
    ensures { Passes (invalid given.now rows.now) result }
{
    let found = faults_of(alloc, &given.options, given.changelog.get(), rows)?;
    if found.is_empty() {
        return Ok(());
    }
    Err(Status::Invalid(found))
}

/// The changelog's own precondition holds, or only warns, for this reason.
pub fn check_own<S: Store>(
    alloc: Global,
    given: &Given,
    store: &S,
    rows: &[Tracked],
) -> Result<Option<Why>, Status>
    requires valid { S.valid store.now }
    requires ready { IsReady given.now.options.dialect (S.state store.now) }
    requires rows { OnIts given.now.options.dialect (S.state store.now)
        (λ database. database.rows ≡ rows.now) }
    ensures passes { OnIts given.now.options.dialect (S.state store.now)
        (λ database. Passes (own_halt given.now database) result) }
    ensures own { IfOk result (λ own.
        OnIts given.now.options.dialect (S.state store.now)
        (λ database. own ≡ own_warning given.now database)) }
{
    match store.look(SESSION) {
        Ok(view) => {
            let dialect = given.options.dialect;
            let choice = own_choice(alloc, given.changelog.get(), dialect, view, rows)?;
            own_answer(choice)
        }
        Err(_) => Err(Status::OutOfMemory),
    }
}

fn own_answer(choice: Choice) -> Result<Option<Why>, Status>
    ensures passes { Passes (if_halts choice) result }
    ensures own { IfOk result (λ own. own ≡ if_warns choice) }
{
    match choice {
        Choice::Halts(why) => Err(Status::Halted {
            identity: None,
            why,
        }),
        Choice::Runs(_, why) => Ok(why),
        Choice::Passes | Choice::Fills | Choice::Skips | Choice::Marks(_) => Ok(None),
    }
}

/// The rows that a rollback to the target takes back.
pub fn check_target<'a>(rows: &'a [Tracked], target: &Target) -> Result<&'a [Tracked], Status>
    ensures undone { IfOk result (λ left.
        option_map (λ stay. rows_undone stay rows.now) (rows_kept target.now rows.now)
        ≡ Some (reverse left.now)) }
    ensures missing { IfErr result
        (λ status. (status ≡ NoTarget) × (rows_kept target.now rows.now ≡ None)) }
{
    match rows_to_undo(rows, target) {
        Ok(undone) => Ok(undone),
        Err(_) => Err(Status::NoTarget),
    }
}

/// How these rows are taken back.
pub fn check_ways(
    alloc: Global,
    given: &Given,
    rows: &[Tracked],
) -> Result<Items<TakenBack>, Status>
    ensures ways { IfOk result (λ ways. AreWays given.now.changelog.sets rows.now ways) }
    ensures passes { Passes (irreversible given.now (reverse rows.now)) result }
{
    match reversible(alloc, given.changelog.get(), rows) {
        Ok(ways) => Ok(ways),
        Err(ReverseFault::Not(of)) => Err(Status::NotReversible(of)),
        Err(ReverseFault::OutOfMemory) => Err(Status::OutOfMemory),
    }
}

/// What names the changeset of the last row.
pub fn last_of(alloc: Global, rows: &[Tracked]) -> Result<Identity, Status>
    ensures last { IfOk result (λ of. option_map identity_of (last_row rows.now) ≡ Some of) }
    ensures passes { Passes (untagged rows.now) result }
{
    match rows.split_last() {
        Some((row, _before)) => {
            let of = identity_of(alloc, row)?;
            Ok(of)
        }
        None => Err(Status::NoTarget),
    }
}

/// What names the changeset of the row.
pub fn identity_of(alloc: Global, row: &Tracked) -> Result<Identity, NoMemory>
    ensures { IfOk result (λ of. of ≡ identity_of row.now) }
{
    Ok(Identity {
        file: row.filename.copy(alloc)?,
        id: row.id.copy(alloc)?,
        author: row.author.copy(alloc)?,
    })
}

/// The lock is free and the changelog goes with the rows, which are answered.
pub fn checked_rows<S: Store>(
    alloc: Global,
    given: &Given,
    store: &S,
) -> Result<Items<Tracked>, Status>
    requires valid { S.valid store.now }
    requires ready { IsReady given.now.options.dialect (S.state store.now) }
    ensures rows { IfOk result (λ rows.
        OnIts given.now.options.dialect (S.state store.now) (λ database. database.rows ≡ rows)) }
    ensures valid { IfOk result (λ rows. faults (sets_in given.now) rows ≡ []) }
    ensures passes { OnIts given.now.options.dialect (S.state store.now)
        (λ database. Passes (unready given.now database) result) }
{
    check_lock(alloc, given.options.dialect, store)?;
    valid_rows(alloc, given, store)
}

/// The changelog goes with the rows, which are answered.
pub fn valid_rows<S: Store>(
    alloc: Global,
    given: &Given,
    store: &S,
) -> Result<Items<Tracked>, Status>
    requires valid { S.valid store.now }
    requires ready { IsReady given.now.options.dialect (S.state store.now) }
    ensures rows { IfOk result (λ rows.
        OnIts given.now.options.dialect (S.state store.now) (λ database. database.rows ≡ rows)) }
    ensures valid { IfOk result (λ rows. faults (sets_in given.now) rows ≡ []) }
    ensures passes { OnIts given.now.options.dialect (S.state store.now)
        (λ database. Passes (invalid given.now database.rows) result) }
{
    let rows = rows_in(alloc, given.options.dialect, store)?;
    check_faults(alloc, given, rows.as_slice())?;
    Ok(rows)
}
