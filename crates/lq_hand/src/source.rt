ghost use Rattle.std.specs.Prelude.{◌≡◌, ◌≤◌, [], List};
ghost use Rattle.lq_base.specs.declared.dialect.Dialect.{Dialect};
ghost use Rattle.lq_hand.specs.Way.{Enters, GivesUp, Looks, Way};
ghost use Rattle.lq_turns.specs.Deed.{Contents};
ghost use Rattle.lq_turns.specs.declared.stamp.Stamp.{Stamp};

use crate::hand::Hand;
use lq_base::Dialect;
use lq_model::{Look, SqlText};
use lq_turns::Stamp;
use std::alloc::Global;

/// What comes where no turn is in hand.
#[derive(Drop)]
pub enum Entered {
    Turn(Hand),
    NoTurn,
    /// There is no memory for the next.
    Lack,
}

/// The turns to come of a command.
pub trait Source {
    ghost use Rattle.lq_base.specs.declared.dialect.Dialect.{Dialect};
    ghost use Rattle.lq_hand.specs.Way.{Way};
    ghost use Rattle.lq_turns.specs.Rest.{Turns};
    ghost use Rattle.lq_turns.specs.Set.{Meaning};
    ghost use Rattle.lq_turns.specs.declared.stamp.Stamp.{Stamp};

    /// What a change says.
    ghost Key: { Type 0 };

    /// What changes do.
    ghost meaning: { Meaning Key };

    ghost left: { Self → Turns Key };

    /// What it tells of a command at its end.
    ghost Told: { Type 0 };

    /// What it holds of a command that has this stamp, on its way to having told so much.
    ghost way: { Self → Dialect → Stamp → Told → Way };

    /// What it has was read for this dialect.
    ghost reads: { Self → Dialect → Type 0 };

    /// Enters the next turn that makes a call, of a command that has this stamp. What is seen is what
    /// is committed.
    fn enter<K: Look, P: SqlText>(
        &mut self,
        alloc: Global,
        dialect: Dialect,
        stamp: &Stamp,
        look: &K,
        sql: &P,
    ) -> Entered
        requires reads { reads self.old dialect }
        requires sql { P.dialect ≡ dialect }
        requires moment { stamp.now.reading ≤ 253402300799999 }
        ensures enters { Enters dialect meaning stamp.now (left self.old)
            (way self.old dialect stamp.now) (K.catalogue look.now) result (left self.new)
            (way self.new dialect stamp.now) }
        ensures reads { reads self.new dialect };

    /// A user's statement of the turn in hand comes next, and this is what it will see.
    fn looks<K: Look>(&mut self, dialect: Dialect, look: &K)
        requires reads { reads self.old dialect }
        ensures left { left self.new ≡ left self.old }
        ensures looks { (stamp : Stamp) (told : Told)
            → Looks dialect (K.catalogue look.now) (way self.old dialect stamp told)
            (way self.new dialect stamp told) }
        ensures reads { reads self.new dialect };

    /// The turn in hand has finished.
    fn finished(&mut self)
        ensures knows { (d : Dialect) (stamp : Stamp) (told : Told) (c : Contents)
            → (way self.old d stamp told).awaits [] c
            → (way self.new d stamp told).knows c }
        ensures left { left self.new ≡ left self.old }
        ensures reads { (d : Dialect) → reads self.old d → reads self.new d };

    /// A statement of the turn in hand was refused, so the turn is taken back.
    fn refused(&mut self)
        ensures left { left self.new ≡ left self.old }
        ensures gives_up { (d : Dialect) (stamp : Stamp) (told : Told)
            → GivesUp (way self.old d stamp told) (way self.new d stamp told) }
        ensures reads { (d : Dialect) → reads self.old d → reads self.new d };
}
