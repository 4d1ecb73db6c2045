ghost use Rattle.std.specs.BTreeMap.{values};
ghost use Rattle.std.specs.Prelude.{◌≡◌, ◌∷◌, IfOk, true};
ghost use Rattle.lq_track.specs.Database.{in_run_order, placed};

use lq_base::{Items, NoMemory, Tracked};
use std::alloc::Global;
use std::collections::BTreeMap;

/// A row's order, and its place among the stored rows, counted from the last: of two rows with one
/// order the later one comes first.
type Place = (u32, usize);

// Whether the row stands before these, of which each stands before the next one.
fn stands_before(row: &Tracked, after: &[Tracked]) -> bool
    ensures { result ≡ true → placed row.now after.now ≡ row.now ∷ after.now }
{
    match after {
        [] => true,
        [next, ..] => row.order < next.order,
    }
}

// Whether each row stands before the next one.
fn are_in_order(rows: &[Tracked]) -> bool
    ensures { result ≡ true → in_run_order rows.now ≡ rows.now }
{
    let mut rest = rows;
    while let Some((row, after)) = rest.split_first() {
        if !stands_before(row, after) {
            return false;
        }
        rest = after;
    }
    true
}

/// The rows in run order, in which they mostly stand.
pub fn in_run_order(alloc: Global, rows: Items<Tracked>) -> Result<Items<Tracked>, NoMemory>
    ensures { IfOk result (λ ran. ran ≡ in_run_order rows) }
{
    if are_in_order(rows.as_slice()) {
        return Ok(rows);
    }
    let mut ran = Items::new(alloc);
    for row in by_place(alloc, rows)?.into_values() {
        ran.push(row)?;
    }
    Ok(ran)
}

fn by_place(alloc: Global, rows: Items<Tracked>) -> Result<BTreeMap<Place, Tracked>, NoMemory>
    ensures { IfOk result (λ placed. values placed ≡ in_run_order rows) }
{
    let count = rows.len();
    let mut rows = rows;
    let mut placed = BTreeMap::new(alloc);
    while let Some(row) = rows.pop() {
        placed.insert((row.order, count - rows.len()), row)?;
    }
    Ok(placed)
}
