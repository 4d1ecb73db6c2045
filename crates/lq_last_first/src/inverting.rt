ghost use Rattle.std.specs.List.{list_all};
ghost use Rattle.std.specs.Option.{unwrap_or};
ghost use Rattle.std.specs.Prelude.{◌≡◌, [], IfOk, None, Some, if◌then◌else◌, is_some, true};
ghost use Rattle.lq_last_first.specs.LastFirst.{last_first};

use lq_base::{Items, NoMemory};
use std::alloc::Global;

/// What says by which steps a thing is taken back, where steps do that.
pub trait Inverts {
    ghost use Rattle.std.specs.Prelude.{◌≡◌, Bool, IfOk, List, Option, true};

    /// The things that it takes back.
    type Thing;

    /// What a thing is taken back by.
    type Step: Drop;

    /// Whether it can tell of this thing.
    ghost knows: { Self → Self.Thing → Bool };

    /// The steps that take a thing back, in order.
    ghost inverse: { Self → Self.Thing → Option (List Self.Step) };

    /// The steps that take a thing back, or `None`.
    fn invert(
        &self,
        alloc: Global,
        thing: &Self::Thing,
    ) -> Result<Option<Items<Self::Step>>, NoMemory>
        requires { knows self.now thing.now ≡ true }
        ensures { IfOk result (λ made. made ≡ inverse self.now thing.now) };
}

/// The steps that take all things back: the last one first. `None` where nothing takes one of them
/// back.
pub fn inverses<B: Inverts>(
    alloc: Global,
    by: &B,
    things: &[B::Thing],
) -> Result<Option<Items<B::Step>>, NoMemory>
    requires { list_all (B.knows by.now) things.now ≡ true }
    ensures { IfOk result (λ made.
        made
        ≡ (if list_all (λ thing. is_some (B.inverse by.now thing)) things.now
        then Some (last_first (λ thing. unwrap_or (B.inverse by.now thing) []) things.now)
        else None)) }
{
    let mut steps = Items::new(alloc);
    let mut rest = things;
    while let Some((thing, front)) = rest.split_last() {
        let Some(more) = by.invert(alloc, thing)? else {
            return Ok(None);
        };
        steps.append(more)?;
        rest = front;
    }
    Ok(Some(steps))
}
