ghost use Rattle.std.specs.Prelude.{◌≡◌, ◌<◌, ◌++◌, ◌∷◌, [], true, IfSome, OnOk, OnErr, length};
ghost use Rattle.lq_db.specs.Db.{IsAdded, IsLockOf, MayTake, leaves_lock};
ghost use Rattle.lq_session.specs.Session.{texts_in};
ghost use Rattle.lq_model.specs.Step.{commits_itself, is_statement, step};

use crate::locking::lock_now;
use lq_base::{Dialect, NoMemory};
use lq_frames::EncodedEntry;
use lq_model::{By, Statement, StoreFault};
use lq_session::Open;
use lq_store::{Executor, RunFault};
use std::alloc::Global;

/// A text more, or nothing changed.
pub fn push_text(
    alloc: Global,
    entry: &mut Option<EncodedEntry>,
    text: &str,
) -> Result<(), NoMemory>
    ensures texts { OnOk result (texts_in entry.new ≡ texts_in entry.old ++ text.now ∷ []) }
    ensures some { OnOk result
        (IfSome entry.old (λ texts. 0 < length texts)
        → IfSome entry.new (λ texts. 0 < length texts)) }
    ensures same { OnErr result (entry.new ≡ entry.old) }
{
    match entry {
        Some(entry) => entry.push(text),
        None => {
            *entry = Some(EncodedEntry::new(alloc, text)?);
            Ok(())
        }
    }
}

fn leaves_lock(by: By, statement: &Statement) -> bool
    ensures { result ≡ leaves_lock by statement.now }
{
    matches!((by, statement), (By::User, Statement::Insert { .. }))
}

// Adds the text of a statement that has run, or changes nothing. The lock is read again unless the
// statement leaves it as it was seen.
#[tactic(auto, using(crate::proofs::LockKept::seen_is))]
fn add<E: Executor>(
    alloc: Global,
    dialect: Dialect,
    engine: &E,
    begun: &mut Open,
    is_same: bool,
    text: &str,
) -> Result<(), NoMemory>
    requires some { IfSome begun.old.entry (λ texts. 0 < length texts) }
    requires same { is_same ≡ true
        → IfSome begun.old.lock (λ lock. IsLockOf dialect (E.held engine.now).now lock) }
    ensures added { OnOk result
        (IsAdded dialect text.now (E.held engine.now).now begun.old begun.new) }
    ensures same { OnErr result (begun.new ≡ begun.old) }
{
    if is_same {
        if begun.lock.is_some() {
            return push_text(alloc, &mut begun.entry, text);
        }
    }
    let lock = lock_now(alloc, dialect, engine)?;
    push_text(alloc, &mut begun.entry, text)?;
    begun.lock = Some(lock);
    Ok(())
}

/// Runs a statement in an open transaction, or changes nothing.
pub fn take<E: Executor>(
    alloc: Global,
    engine: &mut E,
    begun: &mut Open,
    dialect: Dialect,
    by: By,
    text: &str,
    statement: &Statement,
) -> Result<u64, StoreFault>
    requires statement { is_statement (E.held engine.old).dialect statement.now ≡ true }
    requires dialect { (E.held engine.old).dialect ≡ dialect }
    requires some { IfSome begun.old.entry (λ texts. 0 < length texts) }
    requires lock { IfSome begun.old.lock
        (λ lock. IsLockOf dialect (E.held engine.old).now lock) }
    ensures { MayTake dialect text.now (step by dialect statement.now (E.held engine.old).now)
        (E.held engine.old) begun.old result (E.held engine.new) begun.new }
{
    let is_same = leaves_lock(by, statement);
    match engine.run(by, statement) {
        Ok(count) => match add(alloc, dialect, engine, begun, is_same, text) {
            Ok(()) => Ok(count),
            Err(NoMemory) => {
                engine.undo_last();
                Err(StoreFault::OutOfMemory)
            }
        },
        Err(RunFault::Refused(reason)) => Err(StoreFault::Refused(reason)),
        Err(RunFault::OutOfMemory) => Err(StoreFault::OutOfMemory),
    }
}

/// Under mysql a statement of definitions commits.
pub fn commits_itself(dialect: Dialect, statement: &Statement) -> bool
    ensures { result ≡ commits_itself dialect statement.now }
{
    match dialect {
        Dialect::Postgresql => false,
        Dialect::Mysql => !matches!(
            statement,
            Statement::Insert { .. } | Statement::Update { .. } | Statement::Delete { .. }
        ),
    }
}
