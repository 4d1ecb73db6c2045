ghost use Rattle.std.specs.Prelude.{◌≡◌, ◌≤◌, ◌⊎◌, Err, IfErr, IfOk, IfSome, IsTrue, None, Ok, Some, false, is_some, true};
ghost use Rattle.lq_drill.specs.declared.fault.DrillFault.TheVariants as drill;
ghost use Rattle.lq_model.specs.declared.fault.StoreFault.{StoreFault as Fault};
ghost use Rattle.lq_playing.specs.Under.{Hinders, TellsBusy, TellsLost, TellsOpen};
ghost use Rattle.lq_playing.specs.Answers.{fault_of, is_failure, tells_locked};
ghost use Rattle.lq_run.specs.Ends.{disk_failed};
ghost use Rattle.lq_resting.specs.Asking.{asks_open};
ghost use Rattle.lq_store.specs.Journal.{is_open};
ghost use Rattle.lq_track.specs.Database.{lock_of};
ghost use Rattle.lq_turns.specs.declared.answer.Answer.{Answer as Told};

use crate::calls::fault_of;
use lq_base::{Dialect, Duplicate, Lock};
use lq_drill::DrillFault;
use lq_hand::Hand;
use lq_model::StoreFault;
use lq_resting::{asks_open, lock_stands};
use lq_run::Holding;
use lq_store::Store;
use lq_turns::{Answer, Stamp};
use std::alloc::Global;

/// What keeps a command that has begun from its next call: it has no transaction open, and no longer
/// holds the lock, or another session has a transaction open.
pub fn hindrance<S: Store>(
    alloc: Global,
    dialect: Dialect,
    stamp: &Stamp,
    hand: &Hand,
    session: u32,
    store: &S,
) -> Option<Result<Answer, DrillFault>>
    requires valid { S.valid store.now }
    requires live { IsTrue (S.state store.now).live }
    requires moment { stamp.now.reading ≤ 253402300799999 }
    requires opens { is_open session (S.state store.now).begun ≡ asks_open hand.now }
    ensures { Hinders dialect stamp.now session (asks_open hand.now) (S.state store.now) result }
{
    if asks_open(hand) {
        return None;
    }
    match lock_stands(stamp, store) {
        Holding::Lost => Some(lost(alloc, store)),
        Holding::Bare => busy(session, store),
        Holding::Marked => busy(session, store),
    }
}

/// After a fault of the store a command answers that fault, or that its lock is gone.
pub fn after_fault(
    fault: Option<StoreFault>,
    answer: Result<Answer, DrillFault>,
) -> Result<Answer, DrillFault>
    ensures same { fault ≡ None → result ≡ answer }
    ensures locked { is_some fault ≡ true → IfOk result (λ a. tells_locked a ≡ true) }
    ensures kept { IfOk result (λ a. answer ≡ Ok a) }
    ensures fails { IfErr result
        (λ why. (answer ≡ Err why) ⊎
        ((met : Fault) × (fault ≡ Some met) × (fault_of met ≡ why))) }
    ensures unlocked { IfErr result
        (λ why. (answer ≡ Err why) ⊎
        ((a : Told) × (answer ≡ Ok a) × (tells_locked a ≡ false))) }
    ensures disk { disk_failed fault ≡ false → result ≡ Err drill.Disk
        → answer ≡ Err drill.Disk }
{
    match fault {
        None => answer,
        Some(fault) => match answer {
            Ok(answer) => locked_or(answer, fault),
            Err(lack) => Err(lack),
        },
    }
}

fn locked_or(answer: Answer, fault: StoreFault) -> Result<Answer, DrillFault>
    ensures locked { IfOk result (λ a. tells_locked a ≡ true) }
    ensures kept { IfOk result (λ a. a ≡ answer) }
    ensures fault { IfErr result (λ why. why ≡ fault_of fault) }
    ensures unlocked { IfErr result (λ why. tells_locked answer ≡ false) }
{
    if tells_locked(&answer) {
        Ok(answer)
    } else {
        Err(fault_of(fault))
    }
}

fn tells_locked(answer: &Answer) -> bool
    ensures { result ≡ tells_locked answer.now }
{
    matches!(answer, Answer::Locked(_))
}

// The lock that is no longer its own.
fn lost<S: Store>(alloc: Global, store: &S) -> Result<Answer, DrillFault>
    requires valid { S.valid store.now }
    requires live { IsTrue (S.state store.now).live }
    ensures tells { IfSome (lock_of (S.state store.now).dialect (S.state store.now).committed)
        (λ lock. TellsLost lock result) }
    ensures own { IfOk result (λ a. is_failure a ≡ false) }
    ensures fault { IfErr result (λ why. why ≡ drill.OutOfMemory) }
{
    tell(alloc, store.lock())
}

fn tell(alloc: Global, lock: &Lock) -> Result<Answer, DrillFault>
    ensures tells { TellsLost lock.now result }
    ensures own { IfOk result (λ a. is_failure a ≡ false) }
    ensures fault { IfErr result (λ why. why ≡ drill.OutOfMemory) }
{
    match lock.duplicate(alloc) {
        Ok(lock) => Ok(Answer::Locked(lock)),
        Err(_) => Err(DrillFault::OutOfMemory),
    }
}

fn busy<S: Store>(session: u32, store: &S) -> Option<Result<Answer, DrillFault>>
    requires valid { S.valid store.now }
    requires live { IsTrue (S.state store.now).live }
    ensures { TellsBusy session (S.state store.now) result }
{
    match store.look(session) {
        Ok(_) => None,
        Err(fault) => Some(busy_with(fault)),
    }
}

fn busy_with(fault: StoreFault) -> Result<Answer, DrillFault>
    ensures { TellsOpen fault result }
{
    match fault {
        StoreFault::Busy(other) => Ok(Answer::Busy(other)),
        StoreFault::Disk => Err(DrillFault::OutOfMemory),
        StoreFault::Full { .. } => Err(DrillFault::OutOfMemory),
        StoreFault::Refused(_) => Err(DrillFault::OutOfMemory),
        StoreFault::NotSql => Err(DrillFault::OutOfMemory),
        StoreFault::OutOfMemory => Err(DrillFault::OutOfMemory),
    }
}
