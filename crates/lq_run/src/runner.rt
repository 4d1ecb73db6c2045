ghost use Rattle.std.specs.Prelude.{◌≡◌, ◌≢◌, ◌≤◌, [], Bool, IfSome, IsTrue, None, Option, Some, false, is_some, true};
ghost use Rattle.lq_hand.specs.Way.{Enters, Expects, Looks, first_coming};
ghost use Rattle.lq_hand.specs.Hand.{AreTurns, IsReady, calls_left};
ghost use Rattle.lq_hand.specs.declared.hand.Phase.TheVariants as phase;
ghost use Rattle.lq_model.specs.declared.fault.StoreFault.TheVariants as fault;
ghost use Rattle.lq_model.specs.declared.fault.StoreFault.{StoreFault as Fault};
ghost use Rattle.lq_base.specs.declared.dialect.Dialect.{Dialect};
ghost use Rattle.lq_outside.specs.Forms.{Rose};
ghost use Rattle.lq_run.specs.Beside.{Beside, IsSet, StopsAs, is_disk_step};
ghost use Rattle.lq_store.specs.Journal.{CrashesLeave, Keeps, is_open, seen};
ghost use Rattle.lq_run.specs.Crashing.{CrashesClosing, CrashesFor, CrashesNext, CrashesStep, LeftAlone};
ghost use Rattle.lq_run.specs.Does.{AbortFor};
ghost use Rattle.lq_run.specs.Ends.{disk_failed};
ghost use Rattle.lq_run.specs.Stands.{Holds, HoldsAs};
ghost use Rattle.lq_run.specs.Steps.{Stays, StaysShown, ClosesFor, EndsFor, FailsTo, GoesOn, IsShowing, KnownIn, Loses, Shows, Steps, StepsShown, TellsLock, end_of, enters_turns, is_disk, is_over, is_statement, last_end, no_turn, place, standing, stopped_by};
ghost use Rattle.lq_run.specs.declared.runner.Step.TheVariants as step;
ghost use Rattle.lq_track.specs.Database.{lock_of};
ghost use Rattle.lq_hand.specs.declared.progress.Progress.{Progress as Counted};
ghost use Rattle.lq_turns.specs.Session.{Both};
ghost use Rattle.lq_turns.specs.Script.{closing};
ghost use Rattle.lq_turns.specs.declared.stamp.Stamp.{Stamp as Clocked};

use crate::calls::{abort, do_alone};
use crate::hand::{Moved, take};
use crate::holding::{Holding, lock_held};
use lq_base::{Dialect, Duplicate, Items, Lock};
use lq_hand::{Coming, Entered, Hand, Phase, Progress, Source, next_coming};
use lq_model::{Room, SqlText, StoreFault};
use lq_store::Store;
use lq_turns::{Deed, OnLock, Refusal, Stamp};
use std::alloc::Global;

/// How a command ends whose checks are passed.
#[derive(Drop)]
pub enum End {
    Done,
    /// A statement of a turn was refused.
    Refused(Refusal),
    /// It no longer holds the lock, which is this.
    Locked(Lock),
    Disk,
    /// The bytes of the journal, and those of the call's entries.
    Full { used: u64, next: u64 },
    OutOfMemory,
}

/// What a step of a command that has begun came to.
#[derive(Drop)]
pub enum Step {
    /// It made a call, and one is still to be made.
    Going,
    Ended(End),
}

/// A command and how far it is.
#[derive(Drop)]
pub struct Runner<T: Source + Drop> {
    pub alloc: Global,
    pub dialect: Dialect,
    pub stamp: Stamp,
    pub source: T,
    pub hand: Hand,
    pub progress: Progress,
    /// A fault of the store that ends it.
    pub fault: Option<StoreFault>,
    /// The refusal that ends it.
    pub refused: Option<Refusal>,
}

impl<T: Source + Drop> Runner<T> {
    /// A command that has made no call, and has no turn in hand.
    pub fn new(alloc: Global, dialect: Dialect, stamp: Stamp, source: T) -> Runner<T>
        ensures command { (result.dialect ≡ dialect) × (result.stamp ≡ stamp) }
        ensures source { result.source ≡ source }
        ensures hand { result.hand ≡ no_turn }
        ensures unstopped { (result.fault ≡ None) × (result.refused ≡ None) }
    {
        Runner {
            alloc,
            dialect,
            stamp,
            source,
            hand: no_turn(alloc),
            progress: Progress::none(),
            fault: None,
            refused: None,
        }
    }

    /// Makes the next call of the command, or of what comes after a fault. Its session is always the
    /// same.
    pub fn step<S: Store, P: SqlText>(&mut self, session: u32, store: &mut S, sql: &P) -> Step
        requires valid { S.valid store.old }
        requires reads { T.reads self.old.source self.old.dialect }
        requires live { IsTrue (S.state store.old).live }
        requires sql { P.dialect ≡ self.old.dialect }
        requires moment { self.old.stamp.reading ≤ 253402300799999 }
        requires begun { is_over self.old.hand.phase ≡ false }
        requires ready { IsReady self.old.dialect (is_open session (S.state store.old).begun)
            (place (standing T.left T.way self.old)) }
        requires disk { disk_failed self.old.fault ≡ false }
        ensures valid { S.valid store.new }
        ensures same { (self.new.dialect ≡ self.old.dialect)
            × (self.new.stamp ≡ self.old.stamp) }
        ensures reads { T.reads self.new.source self.new.dialect }
        ensures steps { Steps self.old.dialect T.meaning self.old.stamp session
            (standing T.left T.way self.old) (standing T.left T.way self.new) (S.state store.old)
            result (S.state store.new) }
        ensures under_way { Stays self.old.dialect T.meaning self.old.stamp session
            (standing T.left T.way self.old) (standing T.left T.way self.new) (S.state store.old)
            result }
        ensures crash { CrashesStep self.old.dialect T.meaning self.old.stamp session
            (standing T.left T.way self.old) self.new.fault (S.state store.old)
            (S.crashes store.old) (S.crashes store.new) }
        ensures lost { Loses self.old.dialect self.old.stamp self.old.hand (S.state store.old)
            result (S.state store.new) }
        ensures disk { disk_failed self.new.fault ≡ false }
        ensures later { S.faults store.old ≤ S.faults store.new }
        ensures rose { is_disk_step result ≡ true
            → Rose (S.faults store.old) (S.faults store.new) }
        ensures going { GoesOn result self.new.hand.phase }
        ensures beside { Beside session (is_disk_step result) (S.state store.old)
            (S.state store.new) }
        ensures keeps { CrashesLeave (S.state store.old).entries Keeps (S.crashes store.old)
            (S.crashes store.new) }
        ensures stays { is_some self.old.fault ≡ true → is_some self.new.fault ≡ true }
        ensures stops { is_some self.new.fault ≡ true → StopsAs self.old.fault result }
        ensures asks { IsSet self.old.dialect session self.new.hand (S.state store.old)
            (S.state store.new) }
    {
        match self.hand.phase {
            Phase::Inside => self.go_on(session, store, sql),
            Phase::GivingUp => self.give_up(session, store),
            Phase::Over => unreachable!(),
        }
    }

    #[tactic(auto, using(crate::proofs::Stepping::none_left))]
    fn go_on<S: Store, P: SqlText>(&mut self, session: u32, store: &mut S, sql: &P) -> Step
        requires valid { S.valid store.old }
        requires reads { T.reads self.old.source self.old.dialect }
        requires live { IsTrue (S.state store.old).live }
        requires sql { P.dialect ≡ self.old.dialect }
        requires moment { self.old.stamp.reading ≤ 253402300799999 }
        requires inside { self.old.hand.phase ≡ phase.Inside }
        requires turns { AreTurns self.old.dialect (is_open session (S.state store.old).begun)
            (calls_left self.old.hand) }
        requires disk { disk_failed self.old.fault ≡ false }
        ensures valid { S.valid store.new }
        ensures same { (self.new.dialect ≡ self.old.dialect)
            × (self.new.stamp ≡ self.old.stamp) }
        ensures reads { T.reads self.new.source self.new.dialect }
        ensures steps { Steps self.old.dialect T.meaning self.old.stamp session
            (standing T.left T.way self.old) (standing T.left T.way self.new) (S.state store.old)
            result (S.state store.new) }
        ensures under_way { Stays self.old.dialect T.meaning self.old.stamp session
            (standing T.left T.way self.old) (standing T.left T.way self.new) (S.state store.old)
            result }
        ensures crash { CrashesStep self.old.dialect T.meaning self.old.stamp session
            (standing T.left T.way self.old) self.new.fault (S.state store.old)
            (S.crashes store.old) (S.crashes store.new) }
        ensures lost { Loses self.old.dialect self.old.stamp self.old.hand (S.state store.old)
            result (S.state store.new) }
        ensures disk { disk_failed self.new.fault ≡ false }
        ensures later { S.faults store.old ≤ S.faults store.new }
        ensures rose { is_disk_step result ≡ true
            → Rose (S.faults store.old) (S.faults store.new) }
        ensures going { GoesOn result self.new.hand.phase }
        ensures beside { Beside session (is_disk_step result) (S.state store.old)
            (S.state store.new) }
        ensures keeps { CrashesLeave (S.state store.old).entries Keeps (S.crashes store.old)
            (S.crashes store.new) }
        ensures stays { is_some self.old.fault ≡ true → is_some self.new.fault ≡ true }
        ensures stops { is_some self.new.fault ≡ true → StopsAs self.old.fault result }
        ensures asks { IsSet self.old.dialect session self.new.hand (S.state store.old)
            (S.state store.new) }
    {
        if self.hand.calls.is_empty() {
            self.between(session, store, sql)
        } else {
            self.inside(session, store, sql)
        }
    }

    /// Makes the next call of the turn in hand.
    fn inside<S: Store, P: SqlText>(&mut self, session: u32, store: &mut S, sql: &P) -> Step
        requires valid { S.valid store.old }
        requires reads { T.reads self.old.source self.old.dialect }
        requires live { IsTrue (S.state store.old).live }
        requires sql { P.dialect ≡ self.old.dialect }
        requires inside { self.old.hand.phase ≡ phase.Inside }
        requires left { self.old.hand.calls ≢ [] }
        requires turns { AreTurns self.old.dialect (is_open session (S.state store.old).begun)
            (calls_left self.old.hand) }
        requires disk { disk_failed self.old.fault ≡ false }
        ensures valid { S.valid store.new }
        ensures same { (self.new.dialect ≡ self.old.dialect)
            × (self.new.stamp ≡ self.old.stamp) }
        ensures reads { T.reads self.new.source self.new.dialect }
        ensures steps { Steps self.old.dialect T.meaning self.old.stamp session
            (standing T.left T.way self.old) (standing T.left T.way self.new) (S.state store.old)
            result (S.state store.new) }
        ensures under_way { Stays self.old.dialect T.meaning self.old.stamp session
            (standing T.left T.way self.old) (standing T.left T.way self.new) (S.state store.old)
            result }
        ensures crash { CrashesNext self.old.dialect T.meaning self.old.stamp session
            (place (standing T.left T.way self.old)) (S.state store.old) (S.crashes store.old)
            (S.crashes store.new) }
        ensures lost { Loses self.old.dialect self.old.stamp self.old.hand (S.state store.old)
            result (S.state store.new) }
        ensures disk { disk_failed self.new.fault ≡ false }
        ensures later { S.faults store.old ≤ S.faults store.new }
        ensures rose { is_disk_step result ≡ true
            → Rose (S.faults store.old) (S.faults store.new) }
        ensures going { GoesOn result self.new.hand.phase }
        ensures beside { Beside session (is_disk_step result) (S.state store.old)
            (S.state store.new) }
        ensures keeps { CrashesLeave (S.state store.old).entries Keeps (S.crashes store.old)
            (S.crashes store.new) }
        ensures stays { is_some self.old.fault ≡ true → is_some self.new.fault ≡ true }
        ensures stops { is_some self.new.fault ≡ true → StopsAs self.old.fault result }
        ensures asks { IsSet self.old.dialect session self.new.hand (S.state store.old)
            (S.state store.new) }
    {
        let call = next_coming(self.dialect, &self.hand);
        show(&mut self.source, call, self.dialect, session, store);
        self.advance(session, store, sql, call)
    }

    fn advance<S: Store, P: SqlText>(
        &mut self,
        session: u32,
        store: &mut S,
        sql: &P,
        call: Coming,
    ) -> Step
        requires valid { S.valid store.old }
        requires reads { T.reads self.old.source self.old.dialect }
        requires live { IsTrue (S.state store.old).live }
        requires sql { P.dialect ≡ self.old.dialect }
        requires inside { self.old.hand.phase ≡ phase.Inside }
        requires left { self.old.hand.calls ≢ [] }
        requires turns { AreTurns self.old.dialect (is_open session (S.state store.old).begun)
            (calls_left self.old.hand) }
        requires call { call ≡ first_coming self.old.dialect (calls_left self.old.hand) }
        requires disk { disk_failed self.old.fault ≡ false }
        ensures valid { S.valid store.new }
        ensures same { (self.new.dialect ≡ self.old.dialect)
            × (self.new.stamp ≡ self.old.stamp) }
        ensures reads { T.reads self.new.source self.new.dialect }
        ensures steps { StepsShown self.old.dialect T.meaning self.old.stamp session
            (standing T.left T.way self.old) (standing T.left T.way self.new) (S.state store.old)
            result (S.state store.new) }
        ensures under_way { StaysShown self.old.dialect T.meaning self.old.stamp session
            (standing T.left T.way self.old) (standing T.left T.way self.new) (S.state store.old)
            result }
        ensures crash { CrashesNext self.old.dialect T.meaning self.old.stamp session
            (place (standing T.left T.way self.old)) (S.state store.old) (S.crashes store.old)
            (S.crashes store.new) }
        ensures disk { disk_failed self.new.fault ≡ false }
        ensures later { S.faults store.old ≤ S.faults store.new }
        ensures rose { is_disk_step result ≡ true
            → Rose (S.faults store.old) (S.faults store.new) }
        ensures going { GoesOn result self.new.hand.phase }
        ensures beside { Beside session (is_disk_step result) (S.state store.old)
            (S.state store.new) }
        ensures keeps { CrashesLeave (S.state store.old).entries Keeps (S.crashes store.old)
            (S.crashes store.new) }
        ensures stays { is_some self.old.fault ≡ true → is_some self.new.fault ≡ true }
        ensures stops { is_some self.new.fault ≡ true → StopsAs self.old.fault result }
        ensures asks { IsSet self.old.dialect session self.new.hand (S.state store.old)
            (S.state store.new) }
    {
        match take::<T, S, P>(
            &mut self.hand,
            self.alloc,
            session,
            store,
            sql,
            self.dialect,
        ) {
            Moved::On => {
                self.progress = self.progress.with_accepted(call);
                taken(&mut self.source, &self.hand);
                Step::Going
            }
            Moved::Refused(reason) => {
                self.progress = self.progress.with_refused(call);
                self.refused = stopped_by(
                    self.hand.goes_on,
                    self.refused,
                    self.progress.refusal(reason),
                );
                self.source.refused();
                Step::Going
            }
            Moved::Failed(fault) => self.fail(fault),
            Moved::Lack => self.take_back(session, store),
        }
    }

    /// After a fault in a transaction nothing is called of its turn, and after one of the disk nothing
    /// at all.
    fn fail(&mut self, fault: StoreFault) -> Step
        requires reads { T.reads self.old.source self.old.dialect }
        requires disk { disk_failed self.old.fault ≡ false }
        ensures same { (self.new.dialect ≡ self.old.dialect)
            × (self.new.stamp ≡ self.old.stamp) }
        ensures reads { T.reads self.new.source self.new.dialect }
        ensures fails { FailsTo fault self.new.hand.phase self.new.fault result }
        ensures source { self.new.source ≡ self.old.source }
        ensures disk { disk_failed self.new.fault ≡ false }
        ensures told { is_disk_step result ≡ is_disk fault }
        ensures stays { is_some self.old.fault ≡ true → is_some self.new.fault ≡ true }
        ensures stops { StopsAs self.old.fault result }
        ensures going { GoesOn result self.new.hand.phase }
    {
        if is_disk(fault) {
            self.hand.phase = Phase::Over;
            return Step::Ended(End::Disk);
        }
        self.fault = Some(fault);
        self.hand.phase = Phase::GivingUp;
        Step::Going
    }

    /// There is no memory for the next call of a transaction, which is taken back.
    fn take_back<S: Store>(&mut self, session: u32, store: &mut S) -> Step
        requires valid { S.valid store.old }
        requires reads { T.reads self.old.source self.old.dialect }
        requires live { IsTrue (S.state store.old).live }
        requires open_here { is_open session (S.state store.old).begun ≡ true }
        requires disk { disk_failed self.old.fault ≡ false }
        ensures valid { S.valid store.new }
        ensures same { (self.new.dialect ≡ self.old.dialect)
            × (self.new.stamp ≡ self.old.stamp) }
        ensures reads { T.reads self.new.source self.new.dialect }
        ensures result { result ≡ step.Going }
        ensures fault { self.new.fault ≡ Some fault.OutOfMemory }
        ensures hand { self.new.hand ≡ no_turn }
        ensures source { self.new.source ≡ self.old.source }
        ensures aborts { AbortFor self.old.dialect session (S.state store.old) (S.state store.new) }
        ensures crash { CrashesLeave (S.state store.old).entries LeftAlone (S.crashes store.old)
            (S.crashes store.new) }
        ensures disk { disk_failed self.new.fault ≡ false }
        ensures faults { S.faults store.new ≡ S.faults store.old }
        ensures going { GoesOn result self.new.hand.phase }
        ensures beside { Beside session false (S.state store.old) (S.state store.new) }
        ensures keeps { CrashesLeave (S.state store.old).entries Keeps (S.crashes store.old)
            (S.crashes store.new) }
        ensures shuts { is_open session (S.state store.new).begun ≡ false }
    {
        abort(session, store, self.dialect);
        self.fault = Some(StoreFault::OutOfMemory);
        self.hand = no_turn(self.alloc);
        Step::Going
    }

    /// Takes back the turn of which a statement was refused, or that met a fault.
    fn give_up<S: Store>(&mut self, session: u32, store: &mut S) -> Step
        requires valid { S.valid store.old }
        requires reads { T.reads self.old.source self.old.dialect }
        requires live { IsTrue (S.state store.old).live }
        requires gives_up { self.old.hand.phase ≡ phase.GivingUp }
        requires open_here { is_open session (S.state store.old).begun ≡ true }
        requires disk { disk_failed self.old.fault ≡ false }
        ensures valid { S.valid store.new }
        ensures same { (self.new.dialect ≡ self.old.dialect)
            × (self.new.stamp ≡ self.old.stamp) }
        ensures reads { T.reads self.new.source self.new.dialect }
        ensures steps { Steps self.old.dialect T.meaning self.old.stamp session
            (standing T.left T.way self.old) (standing T.left T.way self.new) (S.state store.old)
            result (S.state store.new) }
        ensures under_way { Stays self.old.dialect T.meaning self.old.stamp session
            (standing T.left T.way self.old) (standing T.left T.way self.new) (S.state store.old)
            result }
        ensures crash { CrashesStep self.old.dialect T.meaning self.old.stamp session
            (standing T.left T.way self.old) self.new.fault (S.state store.old)
            (S.crashes store.old) (S.crashes store.new) }
        ensures lost { Loses self.old.dialect self.old.stamp self.old.hand (S.state store.old)
            result (S.state store.new) }
        ensures disk { disk_failed self.new.fault ≡ false }
        ensures later { S.faults store.old ≤ S.faults store.new }
        ensures rose { is_disk_step result ≡ true
            → Rose (S.faults store.old) (S.faults store.new) }
        ensures going { GoesOn result self.new.hand.phase }
        ensures beside { Beside session (is_disk_step result) (S.state store.old)
            (S.state store.new) }
        ensures keeps { CrashesLeave (S.state store.old).entries Keeps (S.crashes store.old)
            (S.crashes store.new) }
        ensures stays { is_some self.old.fault ≡ true → is_some self.new.fault ≡ true }
        ensures stops { is_some self.new.fault ≡ true → StopsAs self.old.fault result }
        ensures asks { IsSet self.old.dialect session self.new.hand (S.state store.old)
            (S.state store.new) }
    {
        abort(session, store, self.dialect);
        self.hand = no_turn(self.alloc);
        Step::Going
    }

    /// Enters the next turn and makes its first call, or the last call of all, where it still holds the
    /// lock.
    fn between<S: Store, P: SqlText>(&mut self, session: u32, store: &mut S, sql: &P) -> Step
        requires valid { S.valid store.old }
        requires reads { T.reads self.old.source self.old.dialect }
        requires live { IsTrue (S.state store.old).live }
        requires sql { P.dialect ≡ self.old.dialect }
        requires moment { self.old.stamp.reading ≤ 253402300799999 }
        requires inside { self.old.hand.phase ≡ phase.Inside }
        requires none_left { self.old.hand.calls ≡ [] }
        requires closed { is_open session (S.state store.old).begun ≡ false }
        requires disk { disk_failed self.old.fault ≡ false }
        ensures valid { S.valid store.new }
        ensures same { (self.new.dialect ≡ self.old.dialect)
            × (self.new.stamp ≡ self.old.stamp) }
        ensures reads { T.reads self.new.source self.new.dialect }
        ensures steps { Steps self.old.dialect T.meaning self.old.stamp session
            (standing T.left T.way self.old) (standing T.left T.way self.new) (S.state store.old)
            result (S.state store.new) }
        ensures under_way { Stays self.old.dialect T.meaning self.old.stamp session
            (standing T.left T.way self.old) (standing T.left T.way self.new) (S.state store.old)
            result }
        ensures crash { CrashesStep self.old.dialect T.meaning self.old.stamp session
            (standing T.left T.way self.old) self.new.fault (S.state store.old)
            (S.crashes store.old) (S.crashes store.new) }
        ensures lost { Loses self.old.dialect self.old.stamp self.old.hand (S.state store.old)
            result (S.state store.new) }
        ensures disk { disk_failed self.new.fault ≡ false }
        ensures later { S.faults store.old ≤ S.faults store.new }
        ensures rose { is_disk_step result ≡ true
            → Rose (S.faults store.old) (S.faults store.new) }
        ensures going { GoesOn result self.new.hand.phase }
        ensures beside { Beside session (is_disk_step result) (S.state store.old)
            (S.state store.new) }
        ensures keeps { CrashesLeave (S.state store.old).entries Keeps (S.crashes store.old)
            (S.crashes store.new) }
        ensures stays { is_some self.old.fault ≡ true → is_some self.new.fault ≡ true }
        ensures stops { is_some self.new.fault ≡ true → StopsAs self.old.fault result }
        ensures asks { IsSet self.old.dialect session self.new.hand (S.state store.old)
            (S.state store.new) }
    {
        match stands(&self.stamp, store) {
            Holding::Bare => self.held(session, store, sql, false),
            Holding::Marked => self.held(session, store, sql, true),
            Holding::Lost => {
                self.hand.phase = Phase::Over;
                locked(self.alloc, store)
            }
        }
    }

    fn held<S: Store, P: SqlText>(
        &mut self,
        session: u32,
        store: &mut S,
        sql: &P,
        is_marked: bool,
    ) -> Step
        requires valid { S.valid store.old }
        requires reads { T.reads self.old.source self.old.dialect }
        requires live { IsTrue (S.state store.old).live }
        requires sql { P.dialect ≡ self.old.dialect }
        requires moment { self.old.stamp.reading ≤ 253402300799999 }
        requires inside { self.old.hand.phase ≡ phase.Inside }
        requires none_left { self.old.hand.calls ≡ [] }
        requires closed { is_open session (S.state store.old).begun ≡ false }
        requires lock { IfSome (lock_of (S.state store.old).dialect (S.state store.old).committed)
            (λ lock. HoldsAs self.old.stamp lock is_marked) }
        requires disk { disk_failed self.old.fault ≡ false }
        ensures valid { S.valid store.new }
        ensures same { (self.new.dialect ≡ self.old.dialect)
            × (self.new.stamp ≡ self.old.stamp) }
        ensures reads { T.reads self.new.source self.new.dialect }
        ensures steps { Steps self.old.dialect T.meaning self.old.stamp session
            (standing T.left T.way self.old) (standing T.left T.way self.new) (S.state store.old)
            result (S.state store.new) }
        ensures under_way { Stays self.old.dialect T.meaning self.old.stamp session
            (standing T.left T.way self.old) (standing T.left T.way self.new) (S.state store.old)
            result }
        ensures crash { CrashesStep self.old.dialect T.meaning self.old.stamp session
            (standing T.left T.way self.old) self.new.fault (S.state store.old)
            (S.crashes store.old) (S.crashes store.new) }
        ensures disk { disk_failed self.new.fault ≡ false }
        ensures later { S.faults store.old ≤ S.faults store.new }
        ensures rose { is_disk_step result ≡ true
            → Rose (S.faults store.old) (S.faults store.new) }
        ensures going { GoesOn result self.new.hand.phase }
        ensures beside { Beside session (is_disk_step result) (S.state store.old)
            (S.state store.new) }
        ensures keeps { CrashesLeave (S.state store.old).entries Keeps (S.crashes store.old)
            (S.crashes store.new) }
        ensures stays { is_some self.old.fault ≡ true → is_some self.new.fault ≡ true }
        ensures stops { is_some self.new.fault ≡ true → StopsAs self.old.fault result }
        ensures asks { IsSet self.old.dialect session self.new.hand (S.state store.old)
            (S.state store.new) }
    {
        if may_enter(self.fault, self.refused) {
            self.enter(session, store, sql, is_marked)
        } else {
            self.end(session, store, sql, is_marked)
        }
    }

    fn enter<S: Store, P: SqlText>(
        &mut self,
        session: u32,
        store: &mut S,
        sql: &P,
        is_marked: bool,
    ) -> Step
        requires valid { S.valid store.old }
        requires reads { T.reads self.old.source self.old.dialect }
        requires live { IsTrue (S.state store.old).live }
        requires sql { P.dialect ≡ self.old.dialect }
        requires moment { self.old.stamp.reading ≤ 253402300799999 }
        requires inside { self.old.hand.phase ≡ phase.Inside }
        requires none_left { self.old.hand.calls ≡ [] }
        requires closed { is_open session (S.state store.old).begun ≡ false }
        requires enters { enters_turns self.old.fault self.old.refused ≡ true }
        requires lock { IfSome (lock_of (S.state store.old).dialect (S.state store.old).committed)
            (λ lock. HoldsAs self.old.stamp lock is_marked) }
        requires disk { disk_failed self.old.fault ≡ false }
        ensures valid { S.valid store.new }
        ensures same { (self.new.dialect ≡ self.old.dialect)
            × (self.new.stamp ≡ self.old.stamp) }
        ensures reads { T.reads self.new.source self.new.dialect }
        ensures steps { Steps self.old.dialect T.meaning self.old.stamp session
            (standing T.left T.way self.old) (standing T.left T.way self.new) (S.state store.old)
            result (S.state store.new) }
        ensures under_way { Stays self.old.dialect T.meaning self.old.stamp session
            (standing T.left T.way self.old) (standing T.left T.way self.new) (S.state store.old)
            result }
        ensures crash { CrashesStep self.old.dialect T.meaning self.old.stamp session
            (standing T.left T.way self.old) self.new.fault (S.state store.old)
            (S.crashes store.old) (S.crashes store.new) }
        ensures disk { disk_failed self.new.fault ≡ false }
        ensures later { S.faults store.old ≤ S.faults store.new }
        ensures rose { is_disk_step result ≡ true
            → Rose (S.faults store.old) (S.faults store.new) }
        ensures going { GoesOn result self.new.hand.phase }
        ensures beside { Beside session (is_disk_step result) (S.state store.old)
            (S.state store.new) }
        ensures keeps { CrashesLeave (S.state store.old).entries Keeps (S.crashes store.old)
            (S.crashes store.new) }
        ensures stays { is_some self.old.fault ≡ true → is_some self.new.fault ≡ true }
        ensures stops { is_some self.new.fault ≡ true → StopsAs self.old.fault result }
        ensures asks { IsSet self.old.dialect session self.new.hand (S.state store.old)
            (S.state store.new) }
    {
        match next(
            &mut self.source,
            self.alloc,
            self.dialect,
            &self.stamp,
            session,
            store,
            sql,
        ) {
            Entered::Turn(hand) => {
                self.hand = hand;
                self.progress = Progress::none();
                self.inside(session, store, sql)
            }
            Entered::NoTurn => self.end(session, store, sql, is_marked),
            Entered::Lack => {
                self.fault = Some(StoreFault::OutOfMemory);
                self.end(session, store, sql, is_marked)
            }
        }
    }

    /// Frees the lock; after a fault one that has a mark stays held.
    fn end<S: Store, P: SqlText>(
        &mut self,
        session: u32,
        store: &mut S,
        sql: &P,
        is_marked: bool,
    ) -> Step
        requires valid { S.valid store.old }
        requires reads { T.reads self.old.source self.old.dialect }
        requires live { IsTrue (S.state store.old).live }
        requires sql { P.dialect ≡ self.old.dialect }
        requires closed { is_open session (S.state store.old).begun ≡ false }
        requires lock { IfSome (lock_of (S.state store.old).dialect (S.state store.old).committed)
            (λ lock. HoldsAs self.old.stamp lock is_marked) }
        requires disk { disk_failed self.old.fault ≡ false }
        ensures valid { S.valid store.new }
        ensures same { (self.new.dialect ≡ self.old.dialect)
            × (self.new.stamp ≡ self.old.stamp) }
        ensures reads { T.reads self.new.source self.new.dialect }
        ensures ends { EndsFor self.old.dialect T.meaning self.old.stamp session self.old.fault
            self.old.refused (S.state store.old) result (S.state store.new) }
        ensures crash { CrashesClosing self.old.dialect self.old.stamp session self.old.fault
            (S.state store.old) (S.crashes store.old) (S.crashes store.new) }
        ensures source { self.new.source ≡ self.old.source }
        ensures disk { disk_failed self.new.fault ≡ false }
        ensures later { S.faults store.old ≤ S.faults store.new }
        ensures rose { is_disk_step result ≡ true
            → Rose (S.faults store.old) (S.faults store.new) }
        ensures going { GoesOn result self.new.hand.phase }
        ensures beside { Beside session (is_disk_step result) (S.state store.old)
            (S.state store.new) }
        ensures keeps { CrashesLeave (S.state store.old).entries Keeps (S.crashes store.old)
            (S.crashes store.new) }
        ensures stays { is_some self.old.fault ≡ true → is_some self.new.fault ≡ true }
        ensures stops { (before : Option Fault)
            → is_some self.new.fault ≡ true
            → StopsAs before result }
        ensures asks { IsSet self.old.dialect session self.new.hand (S.state store.old)
            (S.state store.new) }
    {
        match self.fault {
            None => self.close(session, store, sql),
            Some(fault) => self.end_after(session, store, sql, is_marked, fault),
        }
    }

    #[tactic(auto, using(crate::proofs::Counting::end_disk))]
    fn end_after<S: Store, P: SqlText>(
        &mut self,
        session: u32,
        store: &mut S,
        sql: &P,
        is_marked: bool,
        fault: StoreFault,
    ) -> Step
        requires valid { S.valid store.old }
        requires reads { T.reads self.old.source self.old.dialect }
        requires live { IsTrue (S.state store.old).live }
        requires sql { P.dialect ≡ self.old.dialect }
        requires closed { is_open session (S.state store.old).begun ≡ false }
        requires lock { IfSome (lock_of (S.state store.old).dialect (S.state store.old).committed)
            (λ lock. HoldsAs self.old.stamp lock is_marked) }
        requires fault { self.old.fault ≡ Some fault }
        requires disk { disk_failed self.old.fault ≡ false }
        ensures valid { S.valid store.new }
        ensures same { (self.new.dialect ≡ self.old.dialect)
            × (self.new.stamp ≡ self.old.stamp) }
        ensures reads { T.reads self.new.source self.new.dialect }
        ensures ends { EndsFor self.old.dialect T.meaning self.old.stamp session (Some fault)
            self.old.refused (S.state store.old) result (S.state store.new) }
        ensures crash { CrashesClosing self.old.dialect self.old.stamp session (Some fault)
            (S.state store.old) (S.crashes store.old) (S.crashes store.new) }
        ensures source { self.new.source ≡ self.old.source }
        ensures disk { disk_failed self.new.fault ≡ false }
        ensures later { S.faults store.old ≤ S.faults store.new }
        ensures rose { is_disk_step result ≡ true
            → Rose (S.faults store.old) (S.faults store.new) }
        ensures going { GoesOn result self.new.hand.phase }
        ensures beside { Beside session (is_disk_step result) (S.state store.old)
            (S.state store.new) }
        ensures keeps { CrashesLeave (S.state store.old).entries Keeps (S.crashes store.old)
            (S.crashes store.new) }
        ensures stays { is_some self.old.fault ≡ true → is_some self.new.fault ≡ true }
        ensures stops { (before : Option Fault)
            → is_some self.new.fault ≡ true
            → StopsAs before result }
        ensures asks { IsSet self.old.dialect session self.new.hand (S.state store.old)
            (S.state store.new) }
    {
        if is_marked {
            self.hand.phase = Phase::Over;
            return Step::Ended(end_of(fault));
        }
        self.close(session, store, sql)
    }

    fn close<S: Store, P: SqlText>(&mut self, session: u32, store: &mut S, sql: &P) -> Step
        requires valid { S.valid store.old }
        requires reads { T.reads self.old.source self.old.dialect }
        requires live { IsTrue (S.state store.old).live }
        requires sql { P.dialect ≡ self.old.dialect }
        requires closed { is_open session (S.state store.old).begun ≡ false }
        requires disk { disk_failed self.old.fault ≡ false }
        ensures valid { S.valid store.new }
        ensures same { (self.new.dialect ≡ self.old.dialect)
            × (self.new.stamp ≡ self.old.stamp) }
        ensures reads { T.reads self.new.source self.new.dialect }
        ensures closes { ClosesFor self.old.dialect T.meaning self.old.stamp session
            (last_end self.old.fault self.old.refused) (S.state store.old) result
            (S.state store.new) }
        ensures crash { CrashesFor self.old.dialect session closing (S.state store.old)
            (S.crashes store.old) (S.crashes store.new) }
        ensures source { self.new.source ≡ self.old.source }
        ensures disk { disk_failed self.new.fault ≡ false }
        ensures later { S.faults store.old ≤ S.faults store.new }
        ensures rose { is_disk_step result ≡ true
            → Rose (S.faults store.old) (S.faults store.new) }
        ensures going { GoesOn result self.new.hand.phase }
        ensures beside { Beside session (is_disk_step result) (S.state store.old)
            (S.state store.new) }
        ensures keeps { CrashesLeave (S.state store.old).entries Keeps (S.crashes store.old)
            (S.crashes store.new) }
        ensures stays { is_some self.old.fault ≡ true → is_some self.new.fault ≡ true }
        ensures stops { (before : Option Fault)
            → is_some self.new.fault ≡ true
            → StopsAs before result }
        ensures asks { IsSet self.old.dialect session self.new.hand (S.state store.old)
            (S.state store.new) }
    {
        self.hand.phase = Phase::Over;
        match do_alone(
            self.alloc,
            session,
            store,
            sql,
            self.dialect,
            &[Deed::Locks(OnLock::Freed)],
            Room::Release,
        ) {
            Ok(()) => Step::Ended(last_end(self.fault, self.refused)),
            Err(fault) => Step::Ended(end_of(fault)),
        }
    }
}

fn next<T: Source, S: Store, P: SqlText>(
    source: &mut T,
    alloc: Global,
    dialect: Dialect,
    stamp: &Stamp,
    session: u32,
    store: &S,
    sql: &P,
) -> Entered
    requires valid { S.valid store.now }
    requires live { IsTrue (S.state store.now).live }
    requires reads { T.reads source.old dialect }
    requires sql { P.dialect ≡ dialect }
    requires moment { stamp.now.reading ≤ 253402300799999 }
    ensures enters { Enters dialect T.meaning stamp.now (T.left source.old)
        (T.way source.old dialect stamp.now) (seen session (S.state store.now)) result
        (T.left source.new) (T.way source.new dialect stamp.now) }
    ensures reads { T.reads source.new dialect }
{
    match store.look(session) {
        Ok(view) => source.enter(alloc, dialect, stamp, view, sql),
        Err(_) => Entered::Lack,
    }
}

// Before a user's statement the source looks at what that will see.
fn show<T: Source, S: Store>(
    source: &mut T,
    call: Coming,
    dialect: Dialect,
    session: u32,
    store: &S,
)
    requires valid { S.valid store.now }
    requires live { IsTrue (S.state store.now).live }
    requires reads { T.reads source.old dialect }
    ensures left { T.left source.new ≡ T.left source.old }
    ensures shows { IsShowing session (S.state store.now)
        → (stamp : Clocked) (told : T.Told)
        → Shows dialect call (seen session (S.state store.now))
        (T.way source.old dialect stamp told) (T.way source.new dialect stamp told) }
    ensures reads { T.reads source.new dialect }
{
    if is_statement(call) {
        look_at(source, dialect, session, store);
    }
}

// No other session has a transaction open there.
fn look_at<T: Source, S: Store>(source: &mut T, dialect: Dialect, session: u32, store: &S)
    requires valid { S.valid store.now }
    requires live { IsTrue (S.state store.now).live }
    requires reads { T.reads source.old dialect }
    ensures left { T.left source.new ≡ T.left source.old }
    ensures looks { IsShowing session (S.state store.now)
        → (stamp : Clocked) (told : T.Told)
        → Looks dialect (seen session (S.state store.now)) (T.way source.old dialect stamp told)
        (T.way source.new dialect stamp told) }
    ensures reads { T.reads source.new dialect }
{
    match store.look(session) {
        Ok(view) => source.looks(dialect, view),
        Err(_) => {}
    }
}

fn is_statement(call: Coming) -> bool
    ensures { result ≡ is_statement call }
{
    match call {
        Coming::Statement(_) => true,
        Coming::Commit | Coming::Other => false,
    }
}

// A call of the turn in hand was accepted, perhaps its last.
fn taken<T: Source>(source: &mut T, hand: &Hand)
    ensures left { T.left source.new ≡ T.left source.old }
    ensures knows { (d : Dialect) (stamp : Clocked) (told : T.Told) (goes_on : Bool) (p : Counted)
        (x : Both)
        → Expects d (T.way source.old d stamp told) goes_on (calls_left hand.now) p x
        → KnownIn d (T.way source.new d stamp told) goes_on (calls_left hand.now) p x }
    ensures reads { (d : Dialect) → T.reads source.old d → T.reads source.new d }
{
    if !hand.calls.is_empty() {
        return;
    }
    source.finished();
}

/// No turn is in hand.
pub fn no_turn(alloc: Global) -> Hand
    ensures { result ≡ no_turn }
{
    Hand {
        phase: Phase::Inside,
        calls: Items::new(alloc),
        goes_on: true,
    }
}

// How the store's lock stands.
fn stands<S: Store>(stamp: &Stamp, store: &S) -> Holding
    requires valid { S.valid store.now }
    requires live { IsTrue (S.state store.now).live }
    requires moment { stamp.now.reading ≤ 253402300799999 }
    ensures { IfSome (lock_of (S.state store.now).dialect (S.state store.now).committed)
        (λ lock. Holds stamp.now lock result) }
{
    lock_held(stamp, store.lock())
}

fn locked<S: Store>(alloc: Global, store: &S) -> Step
    requires valid { S.valid store.now }
    requires live { IsTrue (S.state store.now).live }
    ensures tells { IfSome (lock_of (S.state store.now).dialect (S.state store.now).committed)
        (λ lock. TellsLock lock result) }
    ensures told { is_disk_step result ≡ false }
    ensures stops { (before : Option Fault) → is_some before ≡ true → StopsAs before result }
    ensures over { GoesOn result phase.Over }
{
    tell(alloc, store.lock())
}

fn tell(alloc: Global, lock: &Lock) -> Step
    ensures tells { TellsLock lock.now result }
    ensures told { is_disk_step result ≡ false }
    ensures stops { (before : Option Fault) → is_some before ≡ true → StopsAs before result }
    ensures over { GoesOn result phase.Over }
{
    match lock.duplicate(alloc) {
        Ok(lock) => Step::Ended(End::Locked(lock)),
        Err(_) => Step::Ended(End::OutOfMemory),
    }
}

fn may_enter(fault: Option<StoreFault>, refused: Option<Refusal>) -> bool
    ensures { result ≡ enters_turns fault refused }
{
    match fault {
        Some(_) => false,
        None => match refused {
            Some(_) => false,
            None => true,
        },
    }
}

fn stopped_by(goes_on: bool, before: Option<Refusal>, refusal: Refusal) -> Option<Refusal>
    ensures { result ≡ stopped_by (Some refusal) goes_on before }
{
    if goes_on { before } else { Some(refusal) }
}

fn is_disk(fault: StoreFault) -> bool
    ensures { result ≡ is_disk fault }
{
    match fault {
        StoreFault::Disk => true,
        StoreFault::Refused(_) => false,
        StoreFault::NotSql => false,
        StoreFault::Busy(_) => false,
        StoreFault::Full { .. } => false,
        StoreFault::OutOfMemory => false,
    }
}

/// What a fault of the store comes to.
pub fn end_of(fault: StoreFault) -> End
    ensures { result ≡ end_of fault }
{
    match fault {
        StoreFault::Disk => End::Disk,
        StoreFault::Full { used, next } => End::Full { used, next },
        StoreFault::Refused(_) => End::OutOfMemory,
        StoreFault::NotSql => End::OutOfMemory,
        StoreFault::Busy(_) => End::OutOfMemory,
        StoreFault::OutOfMemory => End::OutOfMemory,
    }
}

fn last_end(fault: Option<StoreFault>, refused: Option<Refusal>) -> End
    ensures { result ≡ last_end fault refused }
{
    match fault {
        Some(fault) => end_of(fault),
        None => match refused {
            Some(refusal) => End::Refused(refusal),
            None => End::Done,
        },
    }
}
