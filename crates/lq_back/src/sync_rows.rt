ghost use Rattle.std.specs.Prelude.{◌≡◌, ◌≤◌, ◌+◌, ◌++◌, ◌∷◌, [], IfOk, List, OnOk, not, true};
ghost use Rattle.lq_base.specs.declared.tracking.Exec.TheVariants.{Executed};
ghost use Rattle.lq_base.specs.declared.tracking.Tracked.{Tracked as Row};
ghost use Rattle.lq_expr.specs.declared.options.Options.{Options as Chosen};
ghost use Rattle.lq_plan.specs.Told.{HasRows};
ghost use Rattle.lq_back.specs.Reversal.{AreDated, Adds, HasIdentities, IsAt, Keeps, has_no_row};
ghost use Rattle.lq_seen.specs.View.{view, view_log};
ghost use Rattle.lq_turns.specs.Script.{rows_to_sync};
ghost use Rattle.lq_turns.specs.Set.{has_row};
ghost use Rattle.lq_turns.specs.Settle.{row_for};

use crate::set_index::IdentityKey;
use lq_base::{Exec, Identity, Items, NoMemory, Tracked};
use lq_expr::Options;
use lq_kinds::{ChangeSet, Changelog};
use lq_plan::{RowIndex, greatest, index_of, key_of, row_at};
use lq_seen::{is_selected, row_of_turn};
use std::alloc::Global;
use std::collections::BTreeSet;

/// The rows that are made so far.
#[derive(Drop)]
pub struct Made<'a> {
    pub rows: Items<Tracked>,
    /// Their identities.
    pub seen: BTreeSet<IdentityKey<'a>>,
    /// The last place in run order, with those that are there.
    pub last: u32,
}

/// The rows that a changelog-sync inserts (Liquibase's documentation, "changelog-sync"), for a reading
/// of the clock in milliseconds since 1970-01-01 UTC: one for each selected changeset without a row
/// among `rows`, each in the place after the one before. Of two changesets with one identity the
/// second has the row of the first. More places than 32 bits count are want of memory.
pub fn rows_to_sync<'a>(
    alloc: Global,
    changelog: &'a Changelog,
    options: &Options,
    rows: &'a [Tracked],
    reading: u64,
) -> Result<Items<Tracked>, NoMemory>
    requires moment { reading ≤ 253402300799999 }
    ensures rows { IfOk result
        (λ made. made
        ≡ rows_to_sync reading (view_log options.now changelog.now).sets rows.now) }
    ensures dated { IfOk result (λ made. AreDated made) }
{
    let index = index_of(alloc, rows)?;
    let mut made = none_made(alloc, rows);
    let mut rest = changelog.sets.as_slice();
    while let Some((set, after)) = rest.split_first() {
        add_unless_there(alloc, options, &index, set, reading, &mut made)?;
        rest = after;
    }
    Ok(rows_of(made))
}

fn rows_of(made: Made<'_>) -> Items<Tracked>
    ensures { result ≡ made.entry.rows }
{
    let Made { rows, .. } = made;
    rows
}

fn none_made<'a>(alloc: Global, rows: &[Tracked]) -> Made<'a>
    ensures none { result.rows ≡ [] }
    ensures at { IsAt rows.now result }
{
    Made {
        rows: Items::new(alloc),
        seen: BTreeSet::new(alloc),
        last: greatest(rows),
    }
}

/// Makes the row of the changeset, where it is selected, unless it has one.
fn add_unless_there<'a>(
    alloc: Global,
    options: &Options,
    index: &RowIndex<'a>,
    set: &'a ChangeSet,
    reading: u64,
    made: &mut Made<'a>,
) -> Result<(), NoMemory>
    requires moment { reading ≤ 253402300799999 }
    ensures { OnOk result
        ((rows : List Row)
        → HasRows rows index.now
        → IsAt rows made.old
        → Adds options.now reading rows set.now made.old made.new) }
{
    if has_no_row(options, index, set) {
        add(alloc, set, reading, made)?;
        Ok(())
    } else {
        Ok(())
    }
}

/// Whether the changeset is selected, and has no row in the index.
fn has_no_row<'a>(options: &Options, index: &RowIndex<'a>, set: &'a ChangeSet) -> bool
    ensures { (rows : List Row)
        → HasRows rows index.now
        → result ≡ has_no_row options.now rows set.now }
{
    is_selected(set, options) && is_missing(index, &set.identity)
}

fn is_missing<'a>(index: &RowIndex<'a>, of: &'a Identity) -> bool
    ensures { (rows : List Row) → HasRows rows index.now
        → result ≡ not (has_row rows of.now) }
{
    row_at(index, of).is_none()
}

/// Makes the row of the changeset, unless one is made of its identity.
fn add<'a>(
    alloc: Global,
    set: &'a ChangeSet,
    reading: u64,
    made: &mut Made<'a>,
) -> Result<(), NoMemory>
    requires moment { reading ≤ 253402300799999 }
    ensures { OnOk result
        ((options : Chosen) (rows : List Row)
        → has_no_row options rows set.now ≡ true
        → IsAt rows made.old
        → Adds options reading rows set.now made.old made.new) }
{
    let is_new = keep(&mut made.seen, &set.identity)?;
    if is_new {
        push_row(alloc, set, reading, made)?;
        Ok(())
    } else {
        Ok(())
    }
}

/// Whether the identity is new in the set, which has it afterwards.
fn keep<'a>(seen: &mut BTreeSet<IdentityKey<'a>>, of: &'a Identity) -> Result<bool, NoMemory>
    ensures { IfOk result (λ is_new.
        (rows : List Row) → HasIdentities rows seen.old → Keeps rows of.now is_new seen.new) }
{
    match seen.insert(key_of(of)) {
        Ok(is_new) => Ok(is_new),
        Err(_) => Err(NoMemory),
    }
}

fn push_row(
    alloc: Global,
    set: &ChangeSet,
    reading: u64,
    made: &mut Made<'_>,
) -> Result<(), NoMemory>
    requires moment { reading ≤ 253402300799999 }
    ensures rows { OnOk result
        ((options : Chosen)
        → made.new.rows
        ≡ made.old.rows
        ++ row_for reading (made.old.last + 1) Executed (view options set.now) ∷ []) }
    ensures last { OnOk result (made.new.last ≡ made.old.last + 1) }
    ensures seen { made.new.seen ≡ made.old.seen }
{
    made.last = place_after(made.last)?;
    let row = row_of_turn(alloc, set, reading, made.last, Exec::Executed)?;
    made.rows.push(row)?;
    Ok(())
}

fn place_after(last: u32) -> Result<u32, NoMemory>
    ensures { IfOk result (λ next. next ≡ last + 1) }
{
    last.checked_add(1).ok_or(NoMemory)
}
