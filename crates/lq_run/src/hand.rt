ghost use Rattle.std.specs.Prelude.{◌≡◌, ◌≢◌, ◌≤◌, IsTrue, None, [], false, true};
ghost use Rattle.lq_hand.specs.Hand.{AreTurns, IsNext, calls_left, IsWritable};
ghost use Rattle.lq_hand.specs.declared.hand.Phase.TheVariants as phase;
ghost use Rattle.lq_outside.specs.Forms.{Rose};
ghost use Rattle.lq_run.specs.Beside.{AsksNext, Beside, open_after, is_disk_move};
ghost use Rattle.lq_run.specs.Crashing.{CrashesFor, CrashesTaken};
ghost use Rattle.lq_store.specs.Journal.{CrashesLeave, Keeps, is_open, other};
ghost use Rattle.lq_run.specs.Moves.{Makes, MovesTo, Takes, WasOpen, moved_of};
ghost use Rattle.lq_turns.specs.declared.call.Call.TheVariants as call;
ghost use Rattle.lq_turns.specs.declared.stamp.Stamp.{Stamp};

use crate::calls::{begin, commit, do_deed};
use crate::deed::print;
use lq_base::{Dialect, Reason};
use lq_hand::{Hand, Phase, Source};
use lq_model::{SqlText, StoreFault};
use lq_store::Store;
use lq_turns::{Call, Deed};
use std::alloc::Global;

/// What became of a call.
#[derive(Clone, Copy)]
pub enum Moved {
    On,
    Refused(Reason),
    Failed(StoreFault),
    /// There was no memory for the text of its statement, and nothing was called.
    Lack,
}

/// Makes the next call in hand.
#[tactic(auto, using(crate::proofs::Takes::next_in_hand))]
pub fn take<T: Source, S: Store, P: SqlText>(
    hand: &mut Hand,
    alloc: Global,
    session: u32,
    store: &mut S,
    sql: &P,
    dialect: Dialect,
) -> Moved
    requires valid { S.valid store.old }
    requires live { IsTrue (S.state store.old).live }
    requires sql { P.dialect ≡ dialect }
    requires inside { hand.old.phase ≡ phase.Inside }
    requires left { hand.old.calls ≢ [] }
    requires turns { AreTurns dialect (is_open session (S.state store.old).begun)
        (calls_left hand.old) }
    ensures valid { S.valid store.new }
    ensures takes { (stamp : Stamp)
        → Takes dialect T.meaning stamp session hand.old (S.state store.old) result hand.new
        (S.state store.new) }
    ensures crash { (stamp : Stamp)
        → CrashesTaken dialect T.meaning stamp session hand.old (S.state store.old)
        (S.crashes store.old) (S.crashes store.new) }
    ensures same { hand.new.goes_on ≡ hand.old.goes_on }
    ensures phase { MovesTo result hand.new.phase }
    ensures lack { WasOpen session (S.state store.old) result (S.state store.new) }
    ensures later { S.faults store.old ≤ S.faults store.new }
    ensures rose { is_disk_move result ≡ true → Rose (S.faults store.old) (S.faults store.new) }
    ensures beside { Beside session (is_disk_move result) (S.state store.old) (S.state store.new) }
    ensures keeps { CrashesLeave (S.state store.old).entries Keeps (S.crashes store.old)
        (S.crashes store.new) }
    ensures asks { other session (S.state store.old) ≡ None
        → (S.state store.new).live ≡ true
        → AsksNext dialect result hand.new (is_open session (S.state store.new).begun) }
{
    let Some(call) = hand.calls.pop() else {
        unreachable!();
    };
    match make::<T, S, P>(alloc, session, store, sql, dialect, &call) {
        Moved::On => Moved::On,
        Moved::Refused(reason) => {
            hand.phase = Phase::GivingUp;
            Moved::Refused(reason)
        }
        Moved::Failed(fault) => Moved::Failed(fault),
        Moved::Lack => Moved::Lack,
    }
}

/// Makes a call of a turn.
fn make<T: Source, S: Store, P: SqlText>(
    alloc: Global,
    session: u32,
    store: &mut S,
    sql: &P,
    dialect: Dialect,
    call: &Call,
) -> Moved
    requires valid { S.valid store.old }
    requires live { IsTrue (S.state store.old).live }
    requires sql { P.dialect ≡ dialect }
    requires turn { IsNext dialect (is_open session (S.state store.old).begun) call.now }
    ensures valid { S.valid store.new }
    ensures makes { (stamp : Stamp)
        → Makes dialect T.meaning stamp session call.now (S.state store.old) result
        (S.state store.new) }
    ensures crash { CrashesFor dialect session call.now (S.state store.old) (S.crashes store.old)
        (S.crashes store.new) }
    ensures lack { WasOpen session (S.state store.old) result (S.state store.new) }
    ensures later { S.faults store.old ≤ S.faults store.new }
    ensures rose { is_disk_move result ≡ true → Rose (S.faults store.old) (S.faults store.new) }
    ensures beside { Beside session (is_disk_move result) (S.state store.old) (S.state store.new) }
    ensures keeps { CrashesLeave (S.state store.old).entries Keeps (S.crashes store.old)
        (S.crashes store.new) }
    ensures leaves_open { other session (S.state store.old) ≡ None
        → (S.state store.new).live ≡ true
        → is_open session (S.state store.new).begun ≡ open_after result call.now }
{
    match call {
        Call::Begin => move_of(begin(session, store, dialect)),
        Call::Execute(deed) => execute::<T, S, P>(alloc, session, store, sql, dialect, deed),
        Call::Commit => move_of(commit(session, store, dialect)),
        Call::Abort | Call::Alone(_, _) => unreachable!(),
    }
}

fn execute<T: Source, S: Store, P: SqlText>(
    alloc: Global,
    session: u32,
    store: &mut S,
    sql: &P,
    dialect: Dialect,
    deed: &Deed,
) -> Moved
    requires valid { S.valid store.old }
    requires live { IsTrue (S.state store.old).live }
    requires sql { P.dialect ≡ dialect }
    requires open_here { is_open session (S.state store.old).begun ≡ true }
    requires writable { IsWritable dialect deed.now }
    ensures valid { S.valid store.new }
    ensures makes { (stamp : Stamp)
        → Makes dialect T.meaning stamp session (call.Execute deed.now) (S.state store.old) result
        (S.state store.new) }
    ensures crash { CrashesFor dialect session (call.Execute deed.now) (S.state store.old)
        (S.crashes store.old) (S.crashes store.new) }
    ensures lack { WasOpen session (S.state store.old) result (S.state store.new) }
    ensures later { S.faults store.old ≤ S.faults store.new }
    ensures rose { is_disk_move result ≡ true → Rose (S.faults store.old) (S.faults store.new) }
    ensures beside { Beside session (is_disk_move result) (S.state store.old) (S.state store.new) }
    ensures keeps { CrashesLeave (S.state store.old).entries Keeps (S.crashes store.old)
        (S.crashes store.new) }
    ensures leaves_open { (S.state store.new).live ≡ true
        → is_open session (S.state store.new).begun ≡ true }
{
    match print(alloc, sql, dialect, deed) {
        Ok(text) => move_of(do_deed(session, store, dialect, deed, text.as_str())),
        Err(_) => Moved::Lack,
    }
}

fn move_of(done: Result<(), StoreFault>) -> Moved
    ensures { result ≡ moved_of done }
{
    match done {
        Ok(()) => Moved::On,
        Err(fault) => match fault {
            StoreFault::Refused(reason) => Moved::Refused(reason),
            StoreFault::NotSql => Moved::Failed(StoreFault::NotSql),
            StoreFault::Busy(session) => Moved::Failed(StoreFault::Busy(session)),
            StoreFault::Disk => Moved::Failed(StoreFault::Disk),
            StoreFault::Full { used, next } => Moved::Failed(StoreFault::Full { used, next }),
            StoreFault::OutOfMemory => Moved::Failed(StoreFault::OutOfMemory),
        },
    }
}
