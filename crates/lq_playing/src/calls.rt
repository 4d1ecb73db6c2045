ghost use Rattle.std.specs.Prelude.{◌≡◌, ◌≤◌, ◌&&◌, Err, IfErr, IfOk, IfSome, IsTrue, Ok, false, true};
ghost use Rattle.lq_base.specs.declared.dialect.Dialect.{Dialect as Kind};
ghost use Rattle.lq_drill.specs.declared.fault.DrillFault.TheVariants as drill;
ghost use Rattle.lq_outside.specs.Forms.{Rose};
ghost use Rattle.lq_playing.specs.Answers.{FailsAs, fault_of, is_disk_answer, is_failed_end, is_failure, is_told_end, refusal_in, tells_locked, came};
ghost use Rattle.lq_playing.specs.Checked.{CallsOnce, Judged, TellsBusy, TellsHeld};
ghost use Rattle.lq_run.specs.Beside.{Beside, is_disk_end};
ghost use Rattle.lq_run.specs.Crashing.{CrashesFor};
ghost use Rattle.lq_run.specs.Does.{AllWritable, MayFill};
ghost use Rattle.lq_store.specs.Journal.{is_open};
ghost use Rattle.lq_track.specs.Database.{lock_of};
ghost use Rattle.lq_turns.specs.declared.call.Call.TheVariants.{Alone};
ghost use Rattle.lq_turns.specs.declared.stamp.Stamp.{Stamp as Clocked};

use crate::checks::{Checks, OneCall, Verdict};
use lq_base::{Dialect, Duplicate, Lock};
use lq_drill::DrillFault;
use lq_model::{SqlText, StoreFault};
use lq_run::{End, do_alone};
use lq_store::Store;
use lq_turns::{Answer, Refusal, Stamp};
use std::alloc::Global;

/// What a command does at its first step.
pub fn judge<T: Checks, S: Store, P: SqlText>(
    source: &mut T,
    alloc: Global,
    dialect: Dialect,
    stamp: &Stamp,
    session: u32,
    store: &S,
    sql: &P,
) -> Verdict
    requires valid { S.valid store.now }
    requires live { IsTrue (S.state store.now).live }
    requires closed { is_open session (S.state store.now).begun ≡ false }
    requires reads { T.reads source.old dialect }
    requires sql { P.dialect ≡ dialect }
    requires moment { stamp.now.reading ≤ 253402300799999 }
    ensures judged { Judged dialect T.meaning stamp.now T.way T.ends
        (T.job source.old dialect stamp.now) T.reports (T.left source.new) source.new session
        (S.state store.now) result }
    ensures reads { T.reads source.new dialect }
{
    if is_kept_out(source, store) {
        return held(alloc, store.lock());
    }
    match store.look(session) {
        Ok(view) => source.check(alloc, dialect, stamp, view, sql),
        Err(fault) => busy(fault),
    }
}

// Another session has a transaction open.
fn busy(fault: StoreFault) -> Verdict
    ensures { TellsBusy fault result }
{
    match fault {
        StoreFault::Busy(other) => Verdict::Answer(Answer::Busy(other)),
        StoreFault::Disk => Verdict::Lack,
        StoreFault::Full { .. } => Verdict::Lack,
        StoreFault::Refused(_) => Verdict::Lack,
        StoreFault::NotSql => Verdict::Lack,
        StoreFault::OutOfMemory => Verdict::Lack,
    }
}

// The lock is held, and the command needs it.
fn is_kept_out<T: Checks, S: Store>(source: &T, store: &S) -> bool
    requires valid { S.valid store.now }
    requires live { IsTrue (S.state store.now).live }
    ensures { (d : Kind) (stamp : Clocked)
        → IfSome (lock_of (S.state store.now).dialect (S.state store.now).committed)
        (λ lock. result ≡ ((T.job source.now d stamp).needs_lock && lock.locked)) }
{
    let needs = source.needs_lock();
    needs_held(needs, store.lock())
}

fn needs_held(needs: bool, lock: &Lock) -> bool
    ensures { result ≡ (needs && lock.now.locked) }
{
    needs && lock.locked
}

fn held(alloc: Global, lock: &Lock) -> Verdict
    ensures { TellsHeld lock.now result }
{
    match lock.duplicate(alloc) {
        Ok(lock) => Verdict::Answer(Answer::Locked(lock)),
        Err(_) => Verdict::Lack,
    }
}

/// Makes the only call of a command.
pub fn call_once<S: Store, P: SqlText>(
    alloc: Global,
    session: u32,
    store: &mut S,
    sql: &P,
    dialect: Dialect,
    call: OneCall,
) -> Result<Answer, DrillFault>
    requires valid { S.valid store.old }
    requires live { IsTrue (S.state store.old).live }
    requires closed { is_open session (S.state store.old).begun ≡ false }
    requires sql { P.dialect ≡ dialect }
    requires writable { AllWritable dialect call.deeds }
    requires fills { MayFill call.room call.deeds }
    ensures valid { S.valid store.new }
    ensures calls { CallsOnce dialect session call (S.state store.old) result (S.state store.new) }
    ensures beside { Beside session (is_disk_answer result) (S.state store.old)
        (S.state store.new) }
    ensures crash { CrashesFor dialect session (Alone call.deeds call.room) (S.state store.old)
        (S.crashes store.old) (S.crashes store.new) }
    ensures shuts { (S.state store.new).live ≡ true
        → is_open session (S.state store.new).begun ≡ false }
    ensures later { S.faults store.old ≤ S.faults store.new }
    ensures rose { result ≡ Err drill.Disk → Rose (S.faults store.old) (S.faults store.new) }
{
    let OneCall {
        deeds,
        room,
        answer,
    } = call;
    match do_alone(alloc, session, store, sql, dialect, deeds.as_slice(), room) {
        Ok(()) => Ok(answer),
        Err(fault) => Err(fault_of(fault)),
    }
}

/// A fault of the store as one of a drill. Nothing but the disk, the journal's room and memory can fail.
pub fn fault_of(fault: StoreFault) -> DrillFault
    ensures { result ≡ fault_of fault }
{
    match fault {
        StoreFault::Disk => DrillFault::Disk,
        StoreFault::Full { used, next } => DrillFault::Full { used, next },
        StoreFault::Refused(_) => DrillFault::OutOfMemory,
        StoreFault::NotSql => DrillFault::OutOfMemory,
        StoreFault::Busy(_) => DrillFault::OutOfMemory,
        StoreFault::OutOfMemory => DrillFault::OutOfMemory,
    }
}

/// What a command answers that has ended.
pub fn answer_at<T: Checks>(source: &T, end: End) -> Result<Answer, DrillFault>
    ensures own { IfOk result (λ a. is_failure a ≡ false) }
    ensures whole { IfOk result (λ a. is_failed_end end ≡ false) }
    ensures ends { IfOk result
        (λ a. is_told_end end ≡ true
        → came (T.reports source.now) a ≡ T.ends source.now (refusal_in end)) }
    ensures locked { IfOk result (λ a. is_told_end end ≡ false → tells_locked a ≡ true) }
    ensures fails { IfErr result (FailsAs end) }
    ensures disk { result ≡ Err drill.Disk → is_disk_end end ≡ true }
{
    match end {
        End::Done => told(source, None),
        End::Refused(refusal) => told(source, Some(refusal)),
        End::Locked(lock) => Ok(Answer::Locked(lock)),
        End::Disk => Err(DrillFault::Disk),
        End::Full { used, next } => Err(DrillFault::Full { used, next }),
        End::OutOfMemory => Err(DrillFault::OutOfMemory),
    }
}

fn told<T: Checks>(source: &T, refused: Option<Refusal>) -> Result<Answer, DrillFault>
    ensures own { IfOk result (λ a. is_failure a ≡ false) }
    ensures ends { IfOk result (λ a. came (T.reports source.now) a ≡ T.ends source.now refused) }
    ensures fault { IfErr result (λ why. why ≡ drill.OutOfMemory) }
{
    match source.answer(refused) {
        Ok(answer) => Ok(answer),
        Err(_) => Err(DrillFault::OutOfMemory),
    }
}
