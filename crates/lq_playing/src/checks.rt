ghost use Rattle.std.specs.Prelude.{◌≡◌, ◌≤◌, IfOk, false};
ghost use Rattle.lq_base.specs.declared.dialect.Dialect.{Dialect};
ghost use Rattle.lq_playing.specs.Answers.{is_failure, came};
ghost use Rattle.lq_playing.specs.Checked.{Checked};
ghost use Rattle.lq_turns.specs.declared.stamp.Stamp.{Stamp};

use crate::came::Report;
use lq_base::{Dialect, Items, NoMemory};
use lq_hand::{Hand, Source};
use lq_model::{Look, Room, SqlText};
use lq_turns::{Answer, Deed, Refusal, Stamp};
use std::alloc::Global;

/// The only call of a command: these deeds, in a transaction of their own.
#[derive(Drop)]
pub struct OneCall {
    pub deeds: Items<Deed>,
    /// How much of the journal it may fill.
    pub room: Room,
    /// What the command answers after it.
    pub answer: Answer,
}

/// What the checks of a command come to.
#[derive(Drop)]
pub enum Verdict {
    /// It makes no call, and answers so.
    Answer(Answer),
    OneCall(OneCall),
    /// It takes the lock, makes its turns, of which this is in hand, and frees the lock.
    Turns(Hand),
    /// There is no memory for them.
    Lack,
}

/// The checks of a command, which is the source of its turns once it has passed them.
pub trait Checks: Source {
    ghost use Rattle.std.specs.Prelude.{Option};
    ghost use Rattle.lq_base.specs.declared.dialect.Dialect.{Dialect};
    ghost use Rattle.lq_playing.specs.Checked.{Work};
    ghost use Rattle.lq_playing.specs.declared.came.Came.{Came};
    ghost use Rattle.lq_playing.specs.declared.came.Report.{Report};
    ghost use Rattle.lq_turns.specs.declared.stamp.Stamp.{Stamp};
    ghost use Rattle.lq_turns.specs.declared.stop.Refusal.{Refusal};

    /// What a command that has this stamp does at its first step.
    ghost job: { Self → Dialect → Stamp → Work };

    /// What it comes to at its end, where this refusal stopped it, or none.
    ghost ends: { Self → Option Refusal → Came };

    /// What it did, as far as it came.
    ghost reports: { Self → Report };

    /// Whether a lock that is held keeps it out.
    fn needs_lock(&self) -> bool
        ensures { (d : Dialect) (stamp : Stamp) → result ≡ (job self.now d stamp).needs_lock };

    /// Checks the command on what is committed, at its first step.
    fn check<K: Look, P: SqlText>(
        &mut self,
        alloc: Global,
        dialect: Dialect,
        stamp: &Stamp,
        look: &K,
        sql: &P,
    ) -> Verdict
        requires reads { Self.reads self.old dialect }
        requires sql { P.dialect ≡ dialect }
        requires moment { stamp.now.reading ≤ 253402300799999 }
        ensures checked { Checked dialect Self.meaning stamp.now Self.way ends
            (job self.old dialect stamp.now) reports (Self.left self.new) self.new
            (K.catalogue look.now) result }
        ensures reads { Self.reads self.new dialect };

    /// What it answers after its last call.
    fn answer(&self, refused: Option<Refusal>) -> Result<Answer, NoMemory>
        ensures own { IfOk result (λ a. is_failure a ≡ false) }
        ensures ends { IfOk result (λ a. came (reports self.now) a ≡ ends self.now refused) };

    /// What it did, as far as it came.
    fn into_report(self) -> Report
        ensures { result ≡ reports self };
}
