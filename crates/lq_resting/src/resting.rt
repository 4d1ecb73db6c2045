ghost use Rattle.std.specs.Prelude.{◌≤◌, IfSome, IsTrue, Some};
ghost use Rattle.lq_base.specs.declared.dialect.Dialect.{Dialect as Names};
ghost use Rattle.lq_resting.specs.Asking.{asks_open};
ghost use Rattle.lq_resting.specs.Resting.{Stays};
ghost use Rattle.lq_run.specs.Stands.{Holds};
ghost use Rattle.lq_track.specs.Database.{lock_of};

use crate::asking::asks_open;
use lq_hand::Hand;
use lq_model::StoreFault;
use lq_run::{Holding, lock_held};
use lq_store::Store;
use lq_turns::Stamp;

/// The fault of the store after which a command makes no other call: it has no transaction open, and
/// its lock has a mark.
pub fn last_fault<S: Store>(
    fault: Option<StoreFault>,
    hand: &Hand,
    stamp: &Stamp,
    store: &S,
) -> Option<StoreFault>
    requires valid { S.valid store.now }
    requires live { IsTrue (S.state store.now).live }
    requires moment { stamp.now.reading ≤ 253402300799999 }
    ensures { (d : Names) → Stays d stamp.now fault (asks_open hand.now) (S.state store.now)
        result }
{
    match fault {
        None => None,
        Some(fault) => fault_kept(fault, asks_open(hand), stamp, store),
    }
}

fn fault_kept<S: Store>(
    fault: StoreFault,
    within: bool,
    stamp: &Stamp,
    store: &S,
) -> Option<StoreFault>
    requires valid { S.valid store.now }
    requires live { IsTrue (S.state store.now).live }
    requires moment { stamp.now.reading ≤ 253402300799999 }
    ensures { (d : Names) → Stays d stamp.now (Some fault) within (S.state store.now) result }
{
    if within {
        return None;
    }
    match lock_stands(stamp, store) {
        Holding::Marked => Some(fault),
        Holding::Bare => None,
        Holding::Lost => None,
    }
}

/// How the store's lock stands for the command of a stamp.
pub fn lock_stands<S: Store>(stamp: &Stamp, store: &S) -> Holding
    requires valid { S.valid store.now }
    requires live { IsTrue (S.state store.now).live }
    requires moment { stamp.now.reading ≤ 253402300799999 }
    ensures { IfSome (lock_of (S.state store.now).dialect (S.state store.now).committed)
        (λ lock. Holds stamp.now lock result) }
{
    lock_held(stamp, store.lock())
}
