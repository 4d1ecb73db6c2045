ghost use Rattle.std.specs.Prelude.{◌≡◌};
ghost use Rattle.lq_run.specs.Steps.{no_turn};

use lq_base::Items;
use lq_hand::{Hand, Phase};
use std::alloc::Global;

/// No turn is in hand: all are to come.
pub fn no_turn(alloc: Global) -> Hand
    ensures { result ≡ no_turn }
{
    Hand {
        phase: Phase::Inside,
        calls: Items::new(alloc),
        goes_on: true,
    }
}
