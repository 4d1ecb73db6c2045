ghost use Rattle.std.specs.Prelude.{◌≡◌};
ghost use Rattle.lq_hand.specs.Hand.{calls_left};
ghost use Rattle.lq_resting.specs.Asking.{asks_open, first_within, is_within};

use lq_hand::{Hand, Phase};
use lq_turns::Call;

/// Whether the turn in hand asks for an open transaction.
pub fn asks_open(hand: &Hand) -> bool
    ensures { result ≡ asks_open hand.now }
{
    match hand.phase {
        Phase::Inside => first_within(hand),
        Phase::GivingUp => true,
        Phase::Over => false,
    }
}

fn first_within(hand: &Hand) -> bool
    ensures { result ≡ first_within (calls_left hand.now) }
{
    match hand.calls.as_slice().split_last() {
        Some((call, _before)) => is_within(call),
        None => false,
    }
}

fn is_within(call: &Call) -> bool
    ensures { result ≡ is_within call.now }
{
    match call {
        Call::Execute(_) | Call::Commit => true,
        Call::Begin | Call::Abort | Call::Alone(_, _) => false,
    }
}
