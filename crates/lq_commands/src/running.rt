ghost use Rattle.std.specs.Prelude.{◌≡◌, ◌≤◌, Err, IfErr, IfOk, IsOk, None, false, is_some, true};
ghost use Rattle.lq_beside.specs.Replays.{calls_fit};
ghost use Rattle.lq_hand.specs.Way.{no_progress, refused_in};
ghost use Rattle.lq_hand.specs.Hand.{AreTurns, calls_left};
ghost use Rattle.lq_hand.specs.declared.hand.Phase.TheVariants as phase;
ghost use Rattle.lq_outside.specs.Forms.{Rose};
ghost use Rattle.lq_run.specs.Commands.{LeavesAs};
ghost use Rattle.lq_run.specs.Crashes.{LeftBehind};
ghost use Rattle.lq_run.specs.Ends.{AllHoldOn};
ghost use Rattle.lq_run.specs.Beside.{is_disk_end};
ghost use Rattle.lq_run.specs.declared.runner.End.TheVariants.{Done as Whole, Refused as Stopped};
ghost use Rattle.lq_run.specs.Steps.{TellsAs, TellsTo};
ghost use Rattle.lq_model.specs.declared.fault.StoreFault.TheVariants.{Disk};
ghost use Rattle.lq_tell.specs.declared.status.Status.TheVariants.{DiskFault};
ghost use Rattle.lq_commands.specs.Refusals.{IsFault, ends, fault_status};
ghost use Rattle.lq_commands.specs.Scripts.{NamesStop, YieldedAt, one_way, MayTurn, turns_script};
ghost use Rattle.lq_commands.specs.Works.{IsQuiet, status_by, stop_by, CrashesIn, FailsWith, FullAs, IsReady, KeptLock, OnIts, TellsFull, is_finished, is_whole};
ghost use Rattle.lq_turns.specs.Deed.{contents_of};
ghost use Rattle.lq_turns.specs.Script.{with_lock};
ghost use Rattle.lq_turns.specs.Stops.{is_mark};
ghost use Rattle.lq_turns.specs.Session.{session_on};
ghost use Rattle.lq_turns.specs.Turn.{made};

use crate::given::SESSION;
use crate::one_turn::OneTurn;
use crate::stopping::Stopping;
use lq_base::{Dialect, Identity, Items};
use lq_hand::{Hand, Progress, Source};
use lq_model::{SqlText, StoreFault};
use lq_run::{End, Runner};
use lq_running::run_command;
use lq_seen::Halt;
use lq_store::Store;
use lq_tell::{Done, Status};
use lq_turns::{Refusal, Stamp};
use std::alloc::Global;

/// The status of a fault of the store.
pub fn fault_status(fault: StoreFault) -> Status
    ensures { result ≡ fault_status fault }
{
    match fault {
        StoreFault::Disk => Status::DiskFault,
        StoreFault::Full { used, next } => Status::Full { used, next },
        StoreFault::Refused(_)
        | StoreFault::NotSql
        | StoreFault::Busy(_)
        | StoreFault::OutOfMemory => Status::OutOfMemory,
    }
}

/// What a call that stands alone came to, which met a fault.
pub fn fault_answer(alloc: Global, fault: StoreFault) -> Result<Done, Status>
    ensures fault { IfErr result IsFault }
    ensures ends { IfOk result (λ done. ends done.status ≡ true) }
    ensures unfinished { IfOk result (λ done. is_finished done.status ≡ false) }
    ensures same { IfOk result (λ done. done.status ≡ fault_status fault) }
    ensures disk { result ≡ Err DiskFault → fault ≡ Disk }
    ensures own { IfErr result (λ s. s ≡ fault_status fault) }
    ensures quiet { IfOk result IsQuiet }
{
    match fault_status(fault) {
        Status::Full { used, next } => Ok(Done {
            status: Status::Full { used, next },
            out: None,
            own: None,
            warned: Items::new(alloc),
        }),
        status => Err(status),
    }
}

/// What the turns of a source came to.
#[derive(Drop)]
pub struct Ran<T: Source + Drop> {
    pub source: T,
    pub end: End,
}

/// Takes the lock, makes the turns of a source, and frees the lock.
pub fn run_turns<T: Source + Drop, S: Store, P: SqlText>(
    alloc: Global,
    dialect: Dialect,
    stamp: Stamp,
    source: T,
    store: &mut S,
    sql: &P,
) -> Ran<T>
    requires valid { S.valid store.old }
    requires ready { IsReady dialect (S.state store.old) }
    requires reads { T.reads source dialect }
    requires sql { P.dialect ≡ dialect }
    requires moment { stamp.reading ≤ 253402300799999 }
    requires name { is_mark stamp.who ≡ false }
    requires may_run { OnIts dialect (S.state store.old) (λ database.
        (told : T.Told)
        × MayTurn dialect T.meaning stamp (T.left source) (T.way source dialect stamp) database
        told) }
    ensures valid { S.valid store.new }
    ensures leaves { OnIts dialect (S.state store.old) (λ database.
        LeavesAs dialect (turns_script dialect T.meaning stamp (T.left source) database) database
        (S.state store.old) result.end (S.state store.new)) }
    ensures left { OnIts dialect (S.state store.old) (λ database.
        LeftBehind dialect (turns_script dialect T.meaning stamp (T.left source) database) database
        (S.state store.old) (S.state store.new)) }
    ensures full { OnIts dialect (S.state store.old) (λ database.
        FullAs dialect (turns_script dialect T.meaning stamp (T.left source) database) database
        (S.state store.old) result.end (S.state store.new)) }
    ensures any_moment { OnIts dialect (S.state store.old) (λ database.
        CrashesIn dialect (turns_script dialect T.meaning stamp (T.left source) database) database
        (S.state store.old) (S.crashes store.old) (S.crashes store.new)) }
    ensures tells { OnIts dialect (S.state store.old) (λ database.
        (told : T.Told)
        → MayTurn dialect T.meaning stamp (T.left source) (T.way source dialect stamp) database
        told
        → TellsTo (T.way result.source dialect stamp told) result.end) }
    ensures stops { OnIts dialect (S.state store.old) (λ database.
        (told : T.Told)
        → MayTurn dialect T.meaning stamp (T.left source) (T.way source dialect stamp) database
        told
        → YieldedAt T.way dialect stamp told result.end) }
    ensures later { S.faults store.old ≤ S.faults store.new }
    ensures rose { is_disk_end result.end ≡ true
        → Rose (S.faults store.old) (S.faults store.new) }
{
    let mut runner = Runner::new(alloc, dialect, stamp, Stopping { source });
    let end = run_command(&mut runner, SESSION, store, sql);
    Ran {
        source: runner.source.source,
        end,
    }
}

/// Takes the lock, makes the calls of one turn, at whose refusal the command stops, and frees the lock.
pub fn run_hand<S: Store, P: SqlText>(
    alloc: Global,
    dialect: Dialect,
    stamp: Stamp,
    hand: Hand,
    store: &mut S,
    sql: &P,
) -> End
    requires valid { S.valid store.old }
    requires ready { IsReady dialect (S.state store.old) }
    requires sql { P.dialect ≡ dialect }
    requires moment { stamp.reading ≤ 253402300799999 }
    requires name { is_mark stamp.who ≡ false }
    requires inside { hand.phase ≡ phase.Inside }
    requires turn { AreTurns dialect false (calls_left hand) }
    requires stops { hand.goes_on ≡ false }
    requires holds { AllHoldOn stamp.who (calls_left hand) }
    requires fits { OnIts dialect (S.state store.old) (λ database.
        calls_fit dialect
        (with_lock stamp database (made dialect (calls_left hand) (contents_of database)))
        (session_on database)
        ≡ true) }
    ensures valid { S.valid store.new }
    ensures leaves { OnIts dialect (S.state store.old) (λ database.
        LeavesAs dialect
        (with_lock stamp database (made dialect (calls_left hand) (contents_of database))) database
        (S.state store.old) result (S.state store.new)) }
    ensures left { OnIts dialect (S.state store.old) (λ database.
        LeftBehind dialect
        (with_lock stamp database (made dialect (calls_left hand) (contents_of database))) database
        (S.state store.old) (S.state store.new)) }
    ensures full { OnIts dialect (S.state store.old) (λ database.
        FullAs dialect
        (with_lock stamp database (made dialect (calls_left hand) (contents_of database))) database
        (S.state store.old) result (S.state store.new)) }
    ensures any_moment { OnIts dialect (S.state store.old) (λ database.
        CrashesIn dialect
        (with_lock stamp database (made dialect (calls_left hand) (contents_of database))) database
        (S.state store.old) (S.crashes store.old) (S.crashes store.new)) }
    ensures tells { OnIts dialect (S.state store.old) (λ database.
        TellsAs (one_way (refused_in dialect (calls_left hand) no_progress (contents_of database)))
        result) }
    ensures later { S.faults store.old ≤ S.faults store.new }
    ensures rose { is_disk_end result ≡ true → Rose (S.faults store.old) (S.faults store.new) }
{
    let mut runner = Runner::new(alloc, dialect, stamp, OneTurn);
    runner.hand = hand;
    runner.progress = Progress::none();
    run_command(&mut runner, SESSION, store, sql)
}

/// The status of a run by how it ended: it may have halted, or a statement of a changeset was refused.
pub fn run_status(
    end: End,
    halted: Option<Halt>,
    stopped_at: Option<Identity>,
) -> Result<Status, Status>
    requires lock { KeptLock end }
    requires stopped { NamesStop end halted stopped_at }
    ensures fault { IfErr result IsFault }
    ensures answers { is_whole end ≡ true → IsOk result }
    ensures ends { IfOk result (λ status. ends status ≡ true) }
    ensures whole { IfOk result (λ status. is_finished status ≡ true → is_whole end ≡ true) }
    ensures tells { IfOk result
        (λ status. is_finished status ≡ true
        → status ≡ status_by (stop_by halted stopped_at end)) }
    ensures full { IfOk result (TellsFull end) }
    ensures disk { result ≡ Err DiskFault → is_disk_end end ≡ true }
    ensures own { IfErr result (FailsWith end) }
{
    match end {
        End::Done => Ok(done_status(halted)),
        End::Refused(refusal) => Ok(refused_status(refusal, stopped_at)),
        End::Full { used, next } => Ok(Status::Full { used, next }),
        End::Locked(lock) => Err(Status::Locked(lock)),
        End::Disk => Err(Status::DiskFault),
        End::OutOfMemory => Err(Status::OutOfMemory),
    }
}

fn done_status(halted: Option<Halt>) -> Status
    requires { NamesStop Whole halted None }
    ensures ends { ends result ≡ true }
    ensures finished { is_finished result ≡ true }
    ensures tells { result ≡ status_by (stop_by halted None Whole) }
{
    match halted {
        Some(Halt { identity, why }) => Status::Halted { identity, why },
        None => Status::Done,
    }
}

fn refused_status(refusal: Refusal, stopped_at: Option<Identity>) -> Status
    requires { is_some stopped_at ≡ true }
    ensures ends { ends result ≡ true }
    ensures finished { is_finished result ≡ true }
    ensures tells { result ≡ status_by (stop_by None stopped_at (Stopped refusal)) }
{
    match stopped_at {
        Some(identity) => Status::Refused {
            identity,
            statement: refusal.statement,
            kept: refusal.kept,
            reason: refusal.reason,
        },
        None => unreachable!(),
    }
}
