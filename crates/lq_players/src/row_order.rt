ghost use Rattle.std.specs.Prelude.{◌≡◌, IfOk, List, false, true};
ghost use Rattle.lq_base.specs.declared.tracking.Tracked.{Tracked as Row};
ghost use Rattle.lq_players.specs.AnyCommand.{follows, is_first, stand_behind};
ghost use Rattle.lq_plan.specs.Told.{HasRows};
ghost use Rattle.lq_track.specs.Database.{has_twin_rows};

use lq_base::{NoMemory, Tracked};
use lq_plan::{RowIndex, index_of};
use std::alloc::Global;

/// Whether rows in run order have each a place and an identity of their own. Places begin with 1.
pub fn are_apart<'a>(alloc: Global, rows: &'a [Tracked]) -> Result<bool, NoMemory>
    ensures apart { IfOk result (λ apart. apart ≡ true → has_twin_rows rows.now ≡ false) }
    ensures all { IfOk result (λ apart.
        stand_behind 0 rows.now ≡ true → has_twin_rows rows.now ≡ false → apart ≡ true) }
{
    let index = index_of(alloc, rows)?;
    let mut last = 0;
    let mut rest = rows;
    while let Some((row, after)) = rest.split_first() {
        if !follows(&index, last, row) {
            return Ok(false);
        }
        last = row.order;
        rest = after;
    }
    Ok(true)
}

// It stands behind the last place, and is the first row of its identity.
fn follows<'a>(index: &RowIndex<'a>, last: u32, row: &'a Tracked) -> bool
    ensures { (rows : List Row) → HasRows rows index.now
        → result ≡ follows last row.now rows }
{
    last < row.order && is_first(index, row)
}

fn is_first<'a>(index: &RowIndex<'a>, row: &'a Tracked) -> bool
    ensures { (rows : List Row) → HasRows rows index.now → result ≡ is_first row.now rows }
{
    match index.get(&(row.id.as_str(), row.author.as_str(), row.filename.as_str())) {
        Some(first) => first.order == row.order,
        None => false,
    }
}
