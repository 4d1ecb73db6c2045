ghost use Rattle.std.specs.Prelude.{◌≡◌, ◌≤◌, ◌++◌, ◌∷◌, [], true, Err, IfOk};
ghost use Rattle.lq_db.specs.Alone.{MayKeep, MayRunItself, itself_entries};
ghost use Rattle.lq_db.specs.Db.{IsLockOf};
ghost use Rattle.lq_entries.specs.Log.{IsWhole, UnlessFailed, crashes_in, entries_of, log_of};
ghost use Rattle.lq_journal.specs.State.{dialect_of, disk_of, limit_of};
ghost use Rattle.lq_model.specs.Step.{is_statement, step};
ghost use Rattle.lq_outside.specs.Forms.{Rose};
ghost use Rattle.lq_store.specs.Journal.{LeavesFront};
ghost use Rattle.lq_store.specs.Journal.Entry.{Texts};
ghost use Rattle.lq_session.specs.Session.{side};

use crate::locking::lock_now;
use lq_base::{Dialect, Lock, NoMemory};
use lq_entries::append_both;
use lq_frames::EncodedEntry;
use lq_journal::{AppendFault, Journal};
use lq_model::{By, Statement, StoreFault};
use lq_outside::Disk;
use lq_session::{Open, commit};
use lq_store::{Executor, RunFault};
use std::alloc::Global;

// What is made before anything is written.
#[derive(Drop)]
struct Ready {
    entry: EncodedEntry,
    lock: Lock,
}

fn make_ready<E: Executor>(
    alloc: Global,
    dialect: Dialect,
    engine: &E,
    text: &str,
) -> Result<Ready, NoMemory>
    ensures entry { IfOk result (λ ready. ready.entry ≡ text.now ∷ []) }
    ensures lock { IfOk result (λ ready. IsLockOf dialect (E.held engine.now).now ready.lock) }
{
    let lock = lock_now(alloc, dialect, engine)?;
    let entry = EncodedEntry::new(alloc, text)?;
    Ok(Ready { entry, lock })
}

// Commits the transaction's texts and a statement that has run, or takes the run back.
fn keep_ran<D: Disk, E: Executor>(
    alloc: Global,
    journal: &mut Journal<D>,
    engine: &mut E,
    begun: &mut Open,
    lock: &mut Lock,
    dialect: Dialect,
    text: &str,
) -> Result<(), StoreFault>
    requires whole { IsWhole (D.told (disk_of journal.old)) (D.crashes (disk_of journal.old))
        journal.old }
    ensures does { MayKeep dialect (entries_of begun.old.entry ++ Texts (text.now ∷ []) ∷ [])
        (log_of (D.told (disk_of journal.old)) journal.old)
        (side (E.held engine.old) begun.old lock.old) result
        (log_of (D.told (disk_of journal.new)) journal.new)
        (side (E.held engine.new) begun.new lock.new) }
    ensures whole { UnlessFailed result
        (IsWhole (D.told (disk_of journal.new)) (D.crashes (disk_of journal.new)) journal.new) }
    ensures crash { LeavesFront (log_of (D.told (disk_of journal.old)) journal.old).entries
        (entries_of begun.old.entry ++ Texts (text.now ∷ []) ∷ [])
        (crashes_in (dialect_of journal.old) (limit_of journal.old)
        (D.crashes (disk_of journal.old)))
        (crashes_in (dialect_of journal.new) (limit_of journal.new)
        (D.crashes (disk_of journal.new))) }
    ensures later { D.faults (disk_of journal.old) ≤ D.faults (disk_of journal.new) }
    ensures rose { result ≡ Err StoreFault.Disk
        → Rose (D.faults (disk_of journal.old)) (D.faults (disk_of journal.new)) }
{
    match make_ready(alloc, dialect, engine, text) {
        Err(NoMemory) => {
            engine.undo_last();
            Err(StoreFault::OutOfMemory)
        }
        Ok(ready) => match append_both(journal, &begun.entry, &ready.entry) {
            Ok(()) => {
                engine.forget();
                begun.entry = None;
                begun.lock = None;
                *lock = ready.lock;
                Ok(())
            }
            Err(StoreFault::Disk) => Err(StoreFault::Disk),
            Err(fault) => {
                engine.undo_last();
                Err(fault)
            }
        },
    }
}

/// Runs a statement that commits by itself, in an open transaction.
pub fn run_itself<D: Disk, E: Executor>(
    alloc: Global,
    journal: &mut Journal<D>,
    engine: &mut E,
    begun: &mut Open,
    lock: &mut Lock,
    dialect: Dialect,
    by: By,
    text: &str,
    statement: &Statement,
) -> Result<u64, StoreFault>
    requires whole { IsWhole (D.told (disk_of journal.old)) (D.crashes (disk_of journal.old))
        journal.old }
    requires statement { is_statement (E.held engine.old).dialect statement.now ≡ true }
    requires dialect { (E.held engine.old).dialect ≡ dialect }
    ensures does { MayRunItself dialect text.now
        (step by dialect statement.now (E.held engine.old).now)
        (log_of (D.told (disk_of journal.old)) journal.old)
        (side (E.held engine.old) begun.old lock.old) result
        (log_of (D.told (disk_of journal.new)) journal.new)
        (side (E.held engine.new) begun.new lock.new) }
    ensures whole { UnlessFailed result
        (IsWhole (D.told (disk_of journal.new)) (D.crashes (disk_of journal.new)) journal.new) }
    ensures crash { LeavesFront (log_of (D.told (disk_of journal.old)) journal.old).entries
        (itself_entries text.now (step by dialect statement.now (E.held engine.old).now) begun.old)
        (crashes_in (dialect_of journal.old) (limit_of journal.old)
        (D.crashes (disk_of journal.old)))
        (crashes_in (dialect_of journal.new) (limit_of journal.new)
        (D.crashes (disk_of journal.new))) }
    ensures later { D.faults (disk_of journal.old) ≤ D.faults (disk_of journal.new) }
    ensures rose { result ≡ Err StoreFault.Disk
        → Rose (D.faults (disk_of journal.old)) (D.faults (disk_of journal.new)) }
{
    match engine.run(by, statement) {
        Ok(count) => match keep_ran(alloc, journal, engine, begun, lock, dialect, text) {
            Ok(()) => Ok(count),
            Err(fault) => Err(fault),
        },
        Err(RunFault::Refused(reason)) => match commit(journal, engine, begun, lock) {
            Ok(()) => Err(StoreFault::Refused(reason)),
            Err(AppendFault::Disk) => Err(StoreFault::Disk),
            Err(AppendFault::Full { used, next }) => Err(StoreFault::Full { used, next }),
        },
        Err(RunFault::OutOfMemory) => Err(StoreFault::OutOfMemory),
    }
}
