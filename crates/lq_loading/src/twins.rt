ghost use Rattle.std.specs.Prelude.{◌≡◌, IfOk, List};
ghost use Rattle.lq_base.specs.declared.tracking.Tracked.{Tracked as TrackedValue};
ghost use Rattle.lq_loading.specs.Raise.{IsSeen, Sees};
ghost use Rattle.lq_track.specs.Database.{has_twin_rows};

use lq_base::{NoMemory, Tracked};
use std::alloc::Global;
use std::collections::BTreeSet;

/// An id, an author and a file, which most of them share.
type IdentityKey<'a> = (&'a str, &'a str, &'a str);

// The identities and the orders of rows.
#[derive(Drop)]
struct Seen<'a> {
    identities: BTreeSet<IdentityKey<'a>>,
    orders: BTreeSet<u32>,
}

// Adds a row, and answers whether one of the rows before has its identity or its order.
fn see<'a>(seen: &mut Seen<'a>, row: &'a Tracked) -> Result<bool, NoMemory>
    ensures { (rows : List TrackedValue)
        → IsSeen rows seen.old
        → Sees row.now rows result seen.new }
{
    let key = (row.id.as_str(), row.author.as_str(), row.filename.as_str());
    let Ok(is_new) = seen.identities.insert(key) else {
        return Err(NoMemory);
    };
    let Ok(is_next) = seen.orders.insert(row.order) else {
        return Err(NoMemory);
    };
    Ok(!(is_new && is_next))
}

/// Whether two rows have one identity or one order.
pub fn has_twin_rows(alloc: Global, rows: &[Tracked]) -> Result<bool, NoMemory>
    ensures { IfOk result (λ is. is ≡ has_twin_rows rows.now) }
{
    let mut seen = Seen {
        identities: BTreeSet::new(alloc),
        orders: BTreeSet::new(alloc),
    };
    let mut left = rows;
    while let Some((row, before)) = left.split_last() {
        if see(&mut seen, row)? {
            return Ok(true);
        }
        left = before;
    }
    Ok(false)
}
