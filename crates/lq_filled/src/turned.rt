ghost use Rattle.std.specs.Prelude.{◌≡◌, IfOk, reverse};

use lq_base::{Items, NoMemory};
use std::alloc::Global;

/// The items from the last to the first, so that the first can be popped.
pub fn turned<T: Drop>(alloc: Global, items: Items<T>) -> Result<Items<T>, NoMemory>
    ensures { IfOk result (λ turned. turned ≡ reverse items) }
{
    let mut left = items;
    let mut turned = Items::new(alloc);
    while let Some(item) = left.pop() {
        turned.push(item)?;
    }
    Ok(turned)
}
