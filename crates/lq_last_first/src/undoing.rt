ghost use Rattle.std.specs.Prelude.{◌≡◌, ◌++◌, OnOk};
ghost use Rattle.lq_last_first.specs.LastFirst.{last_first};

use lq_base::{Items, NoMemory};
use std::alloc::Global;

/// What says by which steps a thing is taken back.
pub trait TakesBack {
    ghost use Rattle.std.specs.Prelude.{List};

    /// The things that it takes back.
    type Thing;

    /// What a thing is taken back by.
    type Step: Drop;

    /// The steps that take each thing back, in order.
    ghost steps: { Self → Self.Thing → List Self.Step };

    /// Adds the steps that take a thing back.
    fn push_steps(
        &self,
        alloc: Global,
        thing: &Self::Thing,
        to: &mut Items<Self::Step>,
    ) -> Result<(), NoMemory>
        ensures { OnOk result (to.new ≡ to.old ++ steps self.now thing.now) };
}

/// Adds the steps that take all things back: the last one first.
pub fn push_undoing<B: TakesBack>(
    alloc: Global,
    by: &B,
    things: &[B::Thing],
    to: &mut Items<B::Step>,
) -> Result<(), NoMemory>
    ensures { OnOk result (to.new ≡ to.old ++ last_first (B.steps by.now) things.now) }
{
    // A loop, since a file may state more things than a stack has room for calls.
    let mut rest = things;
    while let Some((thing, before)) = rest.split_last() {
        by.push_steps(alloc, thing, to)?;
        rest = before;
    }
    Ok(())
}
