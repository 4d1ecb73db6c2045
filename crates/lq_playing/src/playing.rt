ghost use Rattle.std.specs.Prelude.{◌≡◌, ◌≤◌, ◌||◌, Err, IsTrue, None, false, is_some, option_map, true, ℕ};
ghost use Rattle.lq_drill.specs.Drill.{IsNew};
ghost use Rattle.lq_drill.specs.declared.fault.DrillFault.TheVariants as drill;
ghost use Rattle.lq_outside.specs.Forms.{Rose};
ghost use Rattle.lq_playing.specs.Answers.{Answers, failure_of, fault_of, is_disk_answer, came};
ghost use Rattle.lq_base.specs.declared.dialect.Dialect.{Dialect as Names};
ghost use Rattle.lq_playing.specs.Under.{IsFree, IsPlain};
ghost use Rattle.lq_resting.specs.Asking.{asks_open};
ghost use Rattle.lq_playing.specs.Checked.{Begins};
ghost use Rattle.lq_playing.specs.Resting.{RestsAs};
ghost use Rattle.lq_playing.specs.Playing.{IsFresh, IsGoing, Took, opens_as, stands};
ghost use Rattle.lq_drill.specs.Player.{LeavesAll};
ghost use Rattle.lq_run.specs.Beside.{Beside};
ghost use Rattle.lq_run.specs.Crashing.{CrashesOpening};
ghost use Rattle.lq_store.specs.Journal.{is_open};

use crate::calls::{answer_at, call_once, fault_of, judge};
use crate::came::{Came, Report};
use crate::checks::{Checks, Verdict};
use crate::hindering::{after_fault, hindrance};
use lq_base::Dialect;
use lq_drill::{DrillFault, Player};
use lq_hand::Progress;
use lq_model::{SqlText, StoreFault};
use lq_resting::last_fault;
use lq_run::{Runner, Step, take_lock};
use lq_store::Store;
use lq_turns::{Answer, Stamp};
use std::alloc::Global;

/// A command that takes its steps beside others.
#[derive(Drop)]
pub struct Playing<T: Checks + Drop> {
    pub runner: Runner<T>,
    /// It has made a call, and others are to come.
    pub begun: bool,
    /// It met a fault of the store.
    pub faulted: bool,
    pub answer: Option<Answer>,
}

impl<T: Checks + Drop> Playing<T> {
    /// A command that has made no step, for statements of this dialect. Its lock carries the stamp.
    pub fn new(alloc: Global, dialect: Dialect, stamp: Stamp, command: T) -> Playing<T>
        requires reads { T.reads command dialect }
        requires moment { stamp.reading ≤ 253402300799999 }
        requires plain { IsPlain stamp }
        ensures new { (n : ℕ)
            → IsNew n (stands T.meaning T.left T.way T.reads T.job T.ends T.reports result) }
        ensures ready { (stands T.meaning T.left T.way T.reads T.job T.ends T.reports
            result).ready }
        ensures dialect { (stands T.meaning T.left T.way T.reads T.job T.ends T.reports
            result).dialect
            ≡ dialect }
        ensures stamp { result.runner.stamp ≡ stamp }
        ensures job { (stands T.meaning T.left T.way T.reads T.job T.ends T.reports result).job
            ≡ T.job command dialect stamp }
    {
        Playing {
            runner: Runner::new(alloc, dialect, stamp, command),
            begun: false,
            faulted: false,
            answer: None,
        }
    }

    /// Its answer, if it has answered, and what it did, as far as it came.
    pub fn into_parts(self) -> (Option<Answer>, Report)
        ensures { option_map (came result.1) result.0
            ≡ (stands T.meaning T.left T.way T.reads T.job T.ends T.reports self).answer }
    {
        let Playing { runner, answer, .. } = self;
        (answer, runner.source.into_report())
    }

    fn play<S: Store, P: SqlText>(
        &mut self,
        session: u32,
        store: &mut S,
        sql: &P,
    ) -> Result<(), DrillFault>
        requires valid { S.valid store.old }
        requires live { IsTrue (S.state store.old).live }
        requires sql { P.dialect ≡ self.old.runner.dialect }
        requires ready { (stands T.meaning T.left T.way T.reads T.job T.ends T.reports
            self.old).ready }
        requires opens { is_open session (S.state store.old).begun
            ≡ opens_as self.old.begun self.old.runner.hand }
        requires going { self.old.answer ≡ None }
        ensures valid { S.valid store.new }
        ensures took { Took session (stands T.meaning T.left T.way T.reads T.job T.ends T.reports
            self.old)
            (stands T.meaning T.left T.way T.reads T.job T.ends T.reports self.new)
            (S.state store.old)
            (S.state store.new) (S.crashes store.old) (S.crashes store.new) result }
        ensures idle { LeavesAll (stands T.meaning T.left T.way T.reads T.job T.ends T.reports
            self.old)
            (S.state store.old) store.old store.new }
        ensures later { S.faults store.old ≤ S.faults store.new }
        ensures rose { result ≡ Err drill.Disk
            → Rose (S.faults store.old) (S.faults store.new) }
    {
        if self.begun {
            self.go_on(session, store, sql)
        } else {
            self.begin(session, store, sql)
        }
    }

    /// Its first step.
    fn begin<S: Store, P: SqlText>(
        &mut self,
        session: u32,
        store: &mut S,
        sql: &P,
    ) -> Result<(), DrillFault>
        requires valid { S.valid store.old }
        requires live { IsTrue (S.state store.old).live }
        requires sql { P.dialect ≡ self.old.runner.dialect }
        requires first { self.old.begun ≡ false }
        requires fresh { IsFresh T.reads self.old.faulted self.old.runner }
        requires closed { is_open session (S.state store.old).begun ≡ false }
        requires going { self.old.answer ≡ None }
        ensures valid { S.valid store.new }
        ensures took { Took session (stands T.meaning T.left T.way T.reads T.job T.ends T.reports
            self.old)
            (stands T.meaning T.left T.way T.reads T.job T.ends T.reports self.new)
            (S.state store.old)
            (S.state store.new) (S.crashes store.old) (S.crashes store.new) result }
        ensures idle { LeavesAll (stands T.meaning T.left T.way T.reads T.job T.ends T.reports
            self.old)
            (S.state store.old) store.old store.new }
        ensures later { S.faults store.old ≤ S.faults store.new }
        ensures rose { result ≡ Err drill.Disk
            → Rose (S.faults store.old) (S.faults store.new) }
    {
        let alloc = self.runner.alloc;
        let dialect = self.runner.dialect;
        match judge(
            &mut self.runner.source,
            alloc,
            dialect,
            &self.runner.stamp,
            session,
            store,
            sql,
        ) {
            Verdict::Answer(answer) => self.finish(Ok(answer)),
            Verdict::OneCall(call) => {
                let done = call_once(alloc, session, store, sql, dialect, call);
                self.finish(done)
            }
            Verdict::Turns(hand) => {
                self.runner.hand = hand;
                self.runner.progress = Progress::none();
                self.take(session, store, sql)
            }
            Verdict::Lack => self.finish(Err(DrillFault::OutOfMemory)),
        }
    }

    /// After a fault of the store a lock that has a mark stays held, and no other call is to come.
    fn rests<S: Store>(&mut self, store: &S) -> Result<(), DrillFault>
        requires valid { S.valid store.now }
        requires live { IsTrue (S.state store.now).live }
        requires moment { self.old.runner.stamp.reading ≤ 253402300799999 }
        ensures runner { self.new.runner ≡ self.old.runner }
        ensures begun { self.new.begun ≡ self.old.begun }
        ensures rests { (d : Names)
            → RestsAs d self.old.runner.stamp self.old.runner.fault
            (asks_open self.old.runner.hand) (S.state store.now) self.old.answer self.old.faulted
            self.new.answer self.new.faulted result }
    {
        match last_fault(
            self.runner.fault,
            &self.runner.hand,
            &self.runner.stamp,
            store,
        ) {
            None => Ok(()),
            Some(fault) => self.fail(fault),
        }
    }

    /// Takes the lock.
    fn take<S: Store, P: SqlText>(
        &mut self,
        session: u32,
        store: &mut S,
        sql: &P,
    ) -> Result<(), DrillFault>
        requires valid { S.valid store.old }
        requires live { IsTrue (S.state store.old).live }
        requires sql { P.dialect ≡ self.old.runner.dialect }
        requires moment { self.old.runner.stamp.reading ≤ 253402300799999 }
        requires closed { is_open session (S.state store.old).begun ≡ false }
        ensures valid { S.valid store.new }
        ensures same { self.new.runner ≡ self.old.runner }
        ensures begins { Begins self.old.runner.dialect self.old.runner.stamp session
            (S.state store.old) (S.state store.new) self.old.begun self.old.answer self.old.faulted
            self.new.begun self.new.answer self.new.faulted result }
        ensures beside { Beside session (is_disk_answer result) (S.state store.old)
            (S.state store.new) }
        ensures crash { CrashesOpening self.old.runner.dialect self.old.runner.stamp session
            (S.state store.old) (S.crashes store.old) (S.crashes store.new) }
        ensures shuts { (S.state store.new).live ≡ true
            → is_open session (S.state store.new).begun ≡ false }
        ensures later { S.faults store.old ≤ S.faults store.new }
        ensures rose { result ≡ Err drill.Disk
            → Rose (S.faults store.old) (S.faults store.new) }
    {
        match take_lock(
            self.runner.alloc,
            session,
            store,
            sql,
            self.runner.dialect,
            &self.runner.stamp,
        ) {
            Ok(()) => {
                self.begun = true;
                Ok(())
            }
            Err(fault) => self.fail(fault),
        }
    }

    fn fail(&mut self, fault: StoreFault) -> Result<(), DrillFault>
        ensures runner { self.new.runner ≡ self.old.runner }
        ensures begun { self.new.begun ≡ self.old.begun }
        ensures answers { Answers (Err (fault_of fault)) self.old.faulted self.new.answer
            self.new.faulted result }
    {
        self.finish(Err(fault_of(fault)))
    }

    /// Its answer. A fault of the store ends a drill.
    fn finish(&mut self, answer: Result<Answer, DrillFault>) -> Result<(), DrillFault>
        ensures runner { self.new.runner ≡ self.old.runner }
        ensures begun { self.new.begun ≡ self.old.begun }
        ensures answers { Answers answer self.old.faulted self.new.answer self.new.faulted result }
    {
        match answer {
            Ok(answer) => {
                self.answer = Some(answer);
                Ok(())
            }
            Err(fault) => {
                self.faulted = true;
                self.answer = Some(failure_of(fault));
                Err(fault)
            }
        }
    }

    /// A later step.
    fn go_on<S: Store, P: SqlText>(
        &mut self,
        session: u32,
        store: &mut S,
        sql: &P,
    ) -> Result<(), DrillFault>
        requires valid { S.valid store.old }
        requires live { IsTrue (S.state store.old).live }
        requires sql { P.dialect ≡ self.old.runner.dialect }
        requires begun { self.old.begun ≡ true }
        requires ready { IsGoing T.reads self.old.faulted self.old.runner }
        requires opens { is_open session (S.state store.old).begun
            ≡ asks_open self.old.runner.hand }
        requires going { self.old.answer ≡ None }
        ensures valid { S.valid store.new }
        ensures took { Took session (stands T.meaning T.left T.way T.reads T.job T.ends T.reports
            self.old)
            (stands T.meaning T.left T.way T.reads T.job T.ends T.reports self.new)
            (S.state store.old)
            (S.state store.new) (S.crashes store.old) (S.crashes store.new) result }
        ensures later { S.faults store.old ≤ S.faults store.new }
        ensures rose { result ≡ Err drill.Disk
            → Rose (S.faults store.old) (S.faults store.new) }
    {
        match hindrance(
            self.runner.alloc,
            self.runner.dialect,
            &self.runner.stamp,
            &self.runner.hand,
            session,
            store,
        ) {
            Some(answer) => {
                let answer = after_fault(self.runner.fault, answer);
                self.finish(answer)
            }
            None => self.make_call(session, store, sql),
        }
    }

    /// Makes its next call.
    fn make_call<S: Store, P: SqlText>(
        &mut self,
        session: u32,
        store: &mut S,
        sql: &P,
    ) -> Result<(), DrillFault>
        requires valid { S.valid store.old }
        requires live { IsTrue (S.state store.old).live }
        requires sql { P.dialect ≡ self.old.runner.dialect }
        requires begun { self.old.begun ≡ true }
        requires ready { IsGoing T.reads self.old.faulted self.old.runner }
        requires opens { is_open session (S.state store.old).begun
            ≡ asks_open self.old.runner.hand }
        requires going { self.old.answer ≡ None }
        requires free { IsFree self.old.runner.dialect self.old.runner.stamp session
            (asks_open self.old.runner.hand) (S.state store.old) }
        ensures valid { S.valid store.new }
        ensures took { Took session (stands T.meaning T.left T.way T.reads T.job T.ends T.reports
            self.old)
            (stands T.meaning T.left T.way T.reads T.job T.ends T.reports self.new)
            (S.state store.old)
            (S.state store.new) (S.crashes store.old) (S.crashes store.new) result }
        ensures later { S.faults store.old ≤ S.faults store.new }
        ensures rose { result ≡ Err drill.Disk
            → Rose (S.faults store.old) (S.faults store.new) }
    {
        match self.runner.step(session, store, sql) {
            Step::Going => {
                self.faulted = has_faulted(self.faulted, self.runner.fault);
                self.rests(store)
            }
            Step::Ended(end) => {
                let answer = answer_at(&self.runner.source, end);
                self.finish(answer)
            }
        }
    }
}

fn has_faulted(before: bool, fault: Option<StoreFault>) -> bool
    ensures { result ≡ (before || is_some fault) }
{
    before || fault.is_some()
}

// The answer to a fault of the store.
fn failure_of(fault: DrillFault) -> Answer
    ensures { result ≡ failure_of fault }
{
    match fault {
        DrillFault::Disk => Answer::Disk,
        DrillFault::Full { used, next } => Answer::Full { used, next },
        DrillFault::OutOfMemory => Answer::OutOfMemory,
    }
}

impl<T: Checks + Drop> Player for Playing<T> {
    ghost use Rattle.lq_playing.specs.Answers.{as_busy, as_failed, as_locked};
    ghost use Rattle.lq_playing.specs.Playing.{is_locked, is_owed, stands};

    type Answer = Came;

    ghost locked = { as_locked };

    ghost busy = { as_busy };

    ghost failed = { as_failed };

    ghost standing = { stands T.meaning T.left T.way T.reads T.job T.ends T.reports };

    ghost held = { λ player. is_locked player.runner.stamp };

    ghost owed = { is_owed T.meaning T.left T.way T.reads T.job T.ends T.reports };

    fn has_answered(&self) -> bool {
        self.answer.is_some()
    }

    fn step<S: Store, P: SqlText>(
        &mut self,
        session: u32,
        store: &mut S,
        sql: &P,
    ) -> Result<(), DrillFault> {
        self.play(session, store, sql)
    }
}
