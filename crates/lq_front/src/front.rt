ghost use Rattle.std.specs.Prelude.{◌≡◌, suc, take};

use lq_base::{Items, cut};

/// Keeps the items up to and with the one at the place, from 0, or all where no item stands there.
pub fn keep_through<T: Drop>(items: &mut Items<T>, place: usize)
    ensures { items.new ≡ take (suc place) items.old }
{
    if place < items.len() {
        cut(items, place + 1);
    }
}
