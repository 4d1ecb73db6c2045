ghost use Rattle.std.specs.Prelude.{◌≡◌, ◌⊎◌};
ghost use Rattle.lq_commands.specs.Refusals.{Passes};
ghost use Rattle.lq_commands.specs.Rehearsal.{unrehearsed};
ghost use Rattle.lq_tell.specs.declared.status.Status.TheVariants.{NotReversible, OutOfMemory};

use lq_base::{Duplicate, Identity, Tracked};
use lq_bound::first_bound;
use lq_commands::Given;
use lq_sets::work_of;
use lq_tell::Status;
use std::alloc::Global;

/// Each changeset that has a turn on these rows has its first one, and something takes it back.
pub fn check_bound(alloc: Global, given: &Given, rows: &[Tracked]) -> Result<(), Status>
    ensures { Passes (unrehearsed given.now rows.now) result }
{
    let changelog = given.changelog.get();
    let turns = work_of(alloc, &given.options, changelog, rows)?;
    match first_bound(turns.as_slice(), changelog.sets.as_slice()) {
        Some(of) => Err(not_reversible(alloc, of)),
        None => Ok(()),
    }
}

fn not_reversible(alloc: Global, of: &Identity) -> Status
    ensures { (result ≡ NotReversible of.now) ⊎ (result ≡ OutOfMemory) }
{
    match of.duplicate(alloc) {
        Ok(copy) => Status::NotReversible(copy),
        Err(_) => Status::OutOfMemory,
    }
}
