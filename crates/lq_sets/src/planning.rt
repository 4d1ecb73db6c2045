ghost use Rattle.std.specs.Prelude.{◌≡◌, IfOk};
ghost use Rattle.lq_plan.specs.Told.{work};
ghost use Rattle.lq_turns.specs.Faults.{faults};
ghost use Rattle.lq_turns.specs.Printed.{pending};
ghost use Rattle.lq_seen.specs.View.{view_log};

use crate::heads::heads_of;
use lq_base::{Identity, Items, NoMemory, Tracked};
use lq_expr::Options;
use lq_kinds::Changelog;
use lq_plan::{Item, faults, pending, work};
use lq_turns::Fault;
use std::alloc::Global;

/// What is wrong with the changelog on these rows, in order: of each changeset that is here, first
/// that an earlier one that is here has its identity, and then that its row has another checksum.
pub fn faults_of(
    alloc: Global,
    options: &Options,
    changelog: &Changelog,
    rows: &[Tracked],
) -> Result<Items<Fault>, NoMemory>
    ensures { IfOk result
        (λ found. found ≡ faults (view_log options.now changelog.now).sets rows.now) }
{
    let heads = heads_of(alloc, options, changelog.sets.as_slice())?;
    let found = faults(alloc, heads.as_slice(), rows)?;
    Ok(found)
}

/// The places of the changesets that have a turn on these rows, from 0, and what each turn is.
pub fn work_of(
    alloc: Global,
    options: &Options,
    changelog: &Changelog,
    rows: &[Tracked],
) -> Result<Items<Item>, NoMemory>
    ensures { IfOk result
        (λ items. items ≡ work (view_log options.now changelog.now).sets rows.now) }
{
    let heads = heads_of(alloc, options, changelog.sets.as_slice())?;
    let items = work(alloc, heads.as_slice(), rows)?;
    Ok(items)
}

/// What a status lists: the selected changesets whose turn on these rows is new or again, in order.
pub fn pending_of(
    alloc: Global,
    options: &Options,
    changelog: &Changelog,
    rows: &[Tracked],
) -> Result<Items<Identity>, NoMemory>
    ensures { IfOk result
        (λ found. found ≡ pending (view_log options.now changelog.now).sets rows.now) }
{
    let heads = heads_of(alloc, options, changelog.sets.as_slice())?;
    let found = pending(alloc, heads.as_slice(), rows)?;
    Ok(found)
}
