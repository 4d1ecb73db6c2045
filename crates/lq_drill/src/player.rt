ghost use Rattle.std.specs.Prelude.{◌≡◌, ◌≤◌, Err, IsTrue, None, Ok, false, is_some, true};
ghost use Rattle.lq_drill.specs.Player.{EndsBy, HasMet, LeavesAll, Moves, MovesSafely};
ghost use Rattle.lq_drill.specs.Faults.{LetsBe};
ghost use Rattle.lq_drill.specs.declared.fault.DrillFault.TheVariants as fault;
ghost use Rattle.lq_outside.specs.Forms.{Rose};
ghost use Rattle.lq_store.specs.Journal.{is_open};

use crate::fault::DrillFault;
use lq_model::SqlText;
use lq_store::Store;

/// A command that takes its steps beside others, over one database.
pub trait Player {
    ghost use Rattle.std.specs.Prelude.{ℕ};
    ghost use Rattle.lq_base.specs.declared.tracking.Lock.{Lock};
    ghost use Rattle.lq_drill.specs.Player.{Standing};
    ghost use Rattle.lq_drill.specs.declared.fault.DrillFault.{DrillFault};
    ghost use Rattle.lq_turns.specs.Schedule.{Holder};

    /// What a command answers.
    type Answer;

    /// Its answer where the lock is held.
    ghost locked: { Lock → Self.Answer };

    /// Its answer where the player of this number has a transaction open.
    ghost busy: { ℕ → Self.Answer };

    /// Its answer to a fault of the store.
    ghost failed: { DrillFault → Self.Answer };

    ghost standing: { Self → Standing Self.Answer locked busy };

    /// Whether it has answered.
    fn has_answered(&self) -> bool
        ensures { result ≡ is_some (standing self.now).answer };

    /// Looks at the database any number of times, and makes at most one call that writes. After a fault
    /// of the store it may go on, and answers that fault in the end, or that its lock is gone. With its
    /// answer it has no transaction open. Its session is always the same.
    fn step<S: Store, P: SqlText>(
        &mut self,
        session: u32,
        store: &mut S,
        sql: &P,
    ) -> Result<(), DrillFault>
        requires valid { S.valid store.old }
        requires live { IsTrue (S.state store.old).live }
        requires sql { P.dialect ≡ (standing self.old).dialect }
        requires ready { (standing self.old).ready }
        requires opens { is_open session (S.state store.old).begun ≡ (standing self.old).opens }
        requires going { (standing self.old).answer ≡ None }
        ensures valid { S.valid store.new }
        ensures live { result ≡ Ok tt → IsTrue (S.state store.new).live }
        ensures dialect { (standing self.new).dialect ≡ (standing self.old).dialect }
        ensures ready { (standing self.new).ready }
        ensures opens { (S.state store.new).live ≡ true
            → is_open session (S.state store.new).begun ≡ (standing self.new).opens }
        ensures shut { is_some (standing self.new).answer ≡ true
            → (standing self.new).opens ≡ false }
        ensures lets_be { LetsBe session (S.state store.old) (S.state store.new) }
        ensures owns { (lock : Lock)
            → (standing self.new).owns lock
            → (standing self.old).owns lock }
        ensures faulted { (standing self.old).faulted ≡ true
            → (standing self.new).faulted ≡ true }
        ensures met { HasMet failed session (standing self.new) }
        ensures ends { EndsBy failed (standing self.new) result }
        ensures moves { Moves failed session (standing self.old) (standing self.new)
            (S.state store.old) result (S.state store.new) }
        ensures idle { LeavesAll (standing self.old) (S.state store.old) store.old store.new }
        ensures crash { MovesSafely failed session (standing self.old) (standing self.new)
            (S.state store.old) (S.crashes store.old) (S.crashes store.new) }
        ensures later { S.faults store.old ≤ S.faults store.new }
        ensures rose { result ≡ Err fault.Disk
            → Rose (S.faults store.old) (S.faults store.new) };

    /// What it took is held.
    ghost held: { (player : Self) (lock : Lock) → (standing player).owns lock → lock.locked ≡ true };

    /// The fault that it owes is what it is to answer, where it is the holder.
    ghost owed: { (player : Self) (why : DrillFault) (holder : Holder Self.Answer locked busy)
        → (standing player).owes why → (standing player).is_at holder
        → holder.answer ≡ failed why };
}
