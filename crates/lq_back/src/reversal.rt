ghost use Rattle.std.specs.List.{list_all};
ghost use Rattle.std.specs.Prelude.{◌≡◌, IfOk, List, None, Some, is_none, option_and_then, reverse};
ghost use Rattle.lq_expr.specs.declared.options.Options.{Options};
ghost use Rattle.lq_kinds.specs.declared.change_set.ChangeSet.{ChangeSet as OneSet};
ghost use Rattle.lq_track.specs.Log.{identity_of};
ghost use Rattle.lq_turns.specs.Script.{not_reversible, undo_turn};
ghost use Rattle.lq_back.specs.Reversal.{AreWays, HasSets, IsRefusal, IsReversed, found_at, has_inverse, is_undoable, taken_back, undoable_place};
ghost use Rattle.lq_seen.specs.View.{any_meaning, views};

use crate::invertible::has_inverse;
use crate::reverse_fault::ReverseFault;
use crate::set_index::{Place, SetIndex, index_of, place_of};
use lq_base::{Identity, Items, NoMemory, Tracked};
use lq_kept::{TakenBack, way_of};
use lq_kinds::{AnyChange, ChangeSet, Changelog};
use std::alloc::Global;

/// Whether the changeset says what takes it back, or that is generated for each of its changes.
pub fn is_undoable(set: &ChangeSet) -> bool
    ensures { result ≡ is_undoable set.now }
{
    set.rollback.is_some() || have_inverses(set.changes.as_slice())
}

fn have_inverses(changes: &[AnyChange]) -> bool
    ensures { result ≡ list_all has_inverse changes.now }
{
    changes.iter().all(|change| has_inverse(change))
}

/// The place of the row's changeset, where that says what takes it back.
fn undoing_place<'a>(index: &SetIndex<'a>, row: &'a Tracked) -> Option<usize>
    ensures { (xs : List OneSet)
        → HasSets xs index.now
        → result ≡ option_and_then undoable_place (found_at (identity_of row.now) xs) }
{
    match place_of(index, row) {
        Some(place) => by_set(place),
        None => None,
    }
}

/// How the row is taken back, where something takes it back.
fn way_found<'a>(index: &SetIndex<'a>, row: &'a Tracked) -> Option<TakenBack>
    ensures way { (xs : List OneSet) → HasSets xs index.now → result ≡ taken_back xs row.now }
    ensures none { (xs : List OneSet) (options : Options)
        → HasSets xs index.now
        → is_none result
        ≡ is_none (undo_turn options.dialect any_meaning (views options xs) row.now) }
{
    way_of(row, undoing_place(index, row))
}

fn by_set(place: Place<'_>) -> Option<usize>
    ensures { result ≡ undoable_place (place.entry.index, place.entry.set.now) }
{
    if is_undoable(place.set) {
        Some(place.index)
    } else {
        None
    }
}

/// What names the changeset of the row.
pub fn identity_of(alloc: Global, row: &Tracked) -> Result<Identity, NoMemory>
    ensures { IfOk result (λ of. of ≡ identity_of row.now) }
{
    Ok(Identity {
        file: row.filename.copy(alloc)?,
        id: row.id.copy(alloc)?,
        author: row.author.copy(alloc)?,
    })
}

fn refusal(alloc: Global, row: &Tracked) -> ReverseFault
    ensures { IsRefusal row.now result }
{
    match identity_of(alloc, row) {
        Ok(of) => ReverseFault::Not(of),
        Err(_) => ReverseFault::OutOfMemory,
    }
}

/// How each of these rows is taken back, the last first (Liquibase's documentation, "rollback").
/// `Not` names the last row that nothing takes back: its changeset is not in the changelog, or it has
/// no rollback block and one of its changes has no generated inverse.
pub fn reversible(
    alloc: Global,
    changelog: &Changelog,
    rows: &[Tracked],
) -> Result<Items<TakenBack>, ReverseFault>
    ensures ways { IfOk result (λ ways. AreWays changelog.now.sets rows.now ways) }
    ensures reversed { (options : Options)
        → IsReversed
        (not_reversible options.dialect any_meaning (views options changelog.now.sets)
        (reverse rows.now)) result }
{
    let index = index_of(alloc, changelog.sets.as_slice())?;
    let mut ways = Items::new(alloc);
    let mut rest = rows;
    while let Some((row, front)) = rest.split_last() {
        let Some(way) = way_found(&index, row) else {
            return Err(refusal(alloc, row));
        };
        ways.push(way)?;
        rest = front;
    }
    Ok(ways)
}
