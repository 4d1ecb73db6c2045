//! Several owned values made or let go by one call, so that a function that does so has few ways out.
ghost use Rattle.std.specs.Prelude.{◌≡◌, ◌≤◌, IfOk, Ok, length, take};

use crate::memory::NoMemory;
use sqlite_items::Items;

/// Both values, where both were made.
pub fn both<A: Drop, B: Drop>(
    first: Result<A, NoMemory>,
    second: Result<B, NoMemory>,
) -> Result<(A, B), NoMemory>
    ensures { IfOk result (λ made. (first ≡ Ok made.0) × (second ≡ Ok made.1)) }
{
    match (first, second) {
        (Ok(a), Ok(b)) => Ok((a, b)),
        _ => Err(NoMemory),
    }
}

/// Drops the items from place `count` on.
pub fn cut<T: Drop>(items: &mut Items<T>, count: usize)
    requires { count ≤ length items.old }
    ensures { items.new ≡ take count items.old }
{
    while items.len() > count {
        let _ = items.pop();
    }
}
