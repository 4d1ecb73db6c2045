ghost use Rattle.std.specs.Prelude.{◌≡◌, ◌≤◌, ℕ, Err, IfOk, MatchResult, None, OnOk, OnErr, Some};
ghost use Rattle.lq_entries.specs.Log.{IsWhole, MayAppend, UnlessDisk, crashes_in, entries_of, log_of};
ghost use Rattle.lq_journal.specs.State.{dialect_of, disk_of, limit_of};
ghost use Rattle.lq_model.specs.declared.caller.Room.TheVariants.{Ordinary};
ghost use Rattle.lq_model.specs.declared.fault.StoreFault.TheVariants.{Busy};
ghost use Rattle.lq_outside.specs.Forms.{Rose};
ghost use Rattle.lq_session.specs.Session.{IsCleared, begun_in, lock_in, side};
ghost use Rattle.lq_store.specs.Journal.{LeavesFront, other_in};
ghost use Rattle.lq_store.specs.Executor.{forgotten, undone};

use crate::open::Open;
use lq_base::Lock;
use lq_entries::append_open;
use lq_journal::{AppendFault, Journal};
use lq_model::{Room, StoreFault};
use lq_outside::Disk;
use lq_store::Executor;

/// What a session sees: the engine, unless another session has a transaction open.
pub fn look<'a, E: Executor>(
    engine: &'a E,
    begun: &Option<Open>,
    session: u32,
) -> Result<&'a E, StoreFault>
    ensures engine { IfOk result (λ view. view.now ≡ engine.now) }
    ensures alone { MatchResult result
        (λ view. other_in session (begun_in (E.held engine.now) begun.now) ≡ None)
        (λ fault. (n : ℕ) × (fault ≡ Busy n)
        × (other_in session (begun_in (E.held engine.now) begun.now) ≡ Some n)) }
{
    match begun {
        None => Ok(engine),
        Some(open) => {
            if open.session == session {
                Ok(engine)
            } else {
                Err(StoreFault::Busy(open.session))
            }
        }
    }
}

// What a session saw is committed.
fn keep(lock: &mut Lock, seen: Option<Lock>)
    ensures { lock.new ≡ lock_in seen lock.old }
{
    match seen {
        None => {}
        Some(seen) => *lock = seen,
    }
}

/// Commits the transaction's texts; it stays open, and has none left.
pub fn commit<D: Disk, E: Executor>(
    journal: &mut Journal<D>,
    engine: &mut E,
    begun: &mut Open,
    lock: &mut Lock,
) -> Result<(), AppendFault>
    requires whole { IsWhole (D.told (disk_of journal.old)) (D.crashes (disk_of journal.old))
        journal.old }
    ensures does { MayAppend Ordinary (entries_of begun.old.entry)
        (log_of (D.told (disk_of journal.old)) journal.old) result
        (log_of (D.told (disk_of journal.new)) journal.new) }
    ensures kept { OnOk result (E.held engine.new ≡ forgotten (E.held engine.old)) }
    ensures cleared { OnOk result (IsCleared begun.old begun.new) }
    ensures lock { OnOk result (lock.new ≡ lock_in begun.old.lock lock.old) }
    ensures back { OnErr result
        (side (E.held engine.new) begun.new lock.new
        ≡ side (E.held engine.old) begun.old lock.old) }
    ensures whole { UnlessDisk result
        (IsWhole (D.told (disk_of journal.new)) (D.crashes (disk_of journal.new)) journal.new) }
    ensures crash { LeavesFront (log_of (D.told (disk_of journal.old)) journal.old).entries
        (entries_of begun.old.entry)
        (crashes_in (dialect_of journal.old) (limit_of journal.old)
        (D.crashes (disk_of journal.old)))
        (crashes_in (dialect_of journal.new) (limit_of journal.new)
        (D.crashes (disk_of journal.new))) }
    ensures later { D.faults (disk_of journal.old) ≤ D.faults (disk_of journal.new) }
    ensures rose { result ≡ Err AppendFault.Disk
        → Rose (D.faults (disk_of journal.old)) (D.faults (disk_of journal.new)) }
{
    append_open(journal, &begun.entry, Room::Ordinary)?;
    engine.forget();
    begun.entry = None;
    keep(lock, begun.lock.take());
    Ok(())
}

/// Takes an open transaction back: the engine has what is committed.
pub fn abort<E: Executor>(engine: &mut E, begun: &mut Option<Open>)
    ensures back { E.held engine.new ≡ undone (E.held engine.old) }
    ensures closed { begun.new ≡ None }
{
    engine.undo();
    *begun = None;
}
