ghost use Rattle.std.specs.Prelude.{◌≡◌, None};
ghost use Rattle.lq_db.specs.Alone.{IsAtRest, IsRunning, MayPrepare, RanAll, RanOne, work};
ghost use Rattle.lq_store.specs.Executor.{kept};
ghost use Rattle.lq_store.specs.Work.{outcome, outcome_all, work_in};

use crate::last_texts::LastTexts;
use crate::locking::lock_now;
use crate::running::{Ended, Running, close, rewind, take_up};
use crate::taking::commits_itself;
use lq_base::{Dialect, Items, Lock, Text};
use lq_entries::size_of_all;
use lq_frames::EncodedEntry;
use lq_model::{ByText, ParseFault, SqlText, StoreFault};
use lq_store::{Executor, RunFault};
use std::alloc::Global;

// Runs one text. One that is refused leaves what is committed before it, which is the texts too where
// it commits by itself.
fn run_one<P: SqlText, E: Executor>(
    alloc: Global,
    sql: &P,
    engine: &mut E,
    running: &mut Running,
    dialect: Dialect,
    text: &ByText,
) -> Result<Ended, StoreFault>
    requires sql { P.dialect ≡ dialect }
    requires running { IsRunning dialect (E.held engine.old) running.old }
    ensures { RanOne dialect
        (outcome dialect text.now.by text.now.text (work (E.held engine.old) running.old))
        (E.held engine.old) result (E.held engine.new) running.new }
{
    let statement = match sql.parse(alloc, text.text.as_str()) {
        Ok(statement) => statement,
        Err(ParseFault::NotSql) => return Err(StoreFault::NotSql),
        Err(ParseFault::OutOfMemory) => return Err(StoreFault::OutOfMemory),
    };
    let itself = commits_itself(dialect, &statement);
    match engine.run(text.by, &statement) {
        Ok(_) => match take_up(alloc, running, itself, text.text.as_str()) {
            Ok(()) => Ok(Ended::Ran),
            Err(_) => Err(StoreFault::OutOfMemory),
        },
        Err(RunFault::Refused(reason)) => {
            if itself {
                match close(running) {
                    Ok(()) => Ok(Ended::Stopped(reason)),
                    Err(_) => Err(StoreFault::OutOfMemory),
                }
            } else {
                rewind(engine, running.runs);
                Ok(Ended::Stopped(reason))
            }
        }
        Err(RunFault::OutOfMemory) => Err(StoreFault::OutOfMemory),
    }
}

// Runs the texts in turn, up to the first that is refused or is no statement.
fn run_all<P: SqlText, E: Executor>(
    alloc: Global,
    sql: &P,
    engine: &mut E,
    running: &mut Running,
    dialect: Dialect,
    texts: &[ByText],
) -> Result<Ended, StoreFault>
    requires sql { P.dialect ≡ dialect }
    requires running { IsRunning dialect (E.held engine.old) running.old }
    ensures { RanAll dialect (outcome_all dialect texts.now (work (E.held engine.old) running.old))
        (E.held engine.old) result (E.held engine.new) running.new }
{
    for text in texts {
        match run_one(alloc, sql, engine, running, dialect, text) {
            Ok(Ended::Ran) => {}
            Ok(Ended::Stopped(reason)) => return Ok(Ended::Stopped(reason)),
            Err(fault) => return Err(fault),
        }
    }
    match close(running) {
        Ok(()) => Ok(Ended::Ran),
        Err(_) => Err(StoreFault::OutOfMemory),
    }
}

/// What texts come to that ran in a transaction of their own: how they ended, the entries to write, and
/// the lock that is committed with them.
#[derive(Drop)]
pub struct Prepared {
    pub ended: Ended,
    pub entries: Items<EncodedEntry>,
    /// How many bytes of the journal they take.
    pub size: u64,
    pub lock: Lock,
    /// The last text of the entries.
    pub last: Option<Text>,
}

/// Runs the texts in the engine, which then has what is committed with the entries.
pub fn prepare<P: SqlText, E: Executor>(
    alloc: Global,
    sql: &P,
    engine: &mut E,
    dialect: Dialect,
    texts: &[ByText],
) -> Result<Prepared, StoreFault>
    requires sql { P.dialect ≡ dialect }
    requires ready { IsAtRest dialect (E.held engine.old) }
    ensures { MayPrepare dialect
        (outcome_all dialect texts.now (work_in None (kept (E.held engine.old))))
        (E.held engine.old) result (E.held engine.new) }
{
    let mut running = Running {
        entries: Items::new(alloc),
        entry: None,
        runs: 0,
        texts: LastTexts {
            in_journal: None,
            waiting: None,
        },
    };
    let ended = match run_all(alloc, sql, engine, &mut running, dialect, texts) {
        Ok(ended) => ended,
        Err(fault) => return Err(fault),
    };
    let lock = match lock_now(alloc, dialect, engine) {
        Ok(lock) => lock,
        Err(_) => return Err(StoreFault::OutOfMemory),
    };
    let Some(size) = size_of_all(running.entries.as_slice()) else {
        return Err(StoreFault::OutOfMemory);
    };
    let Running { entries, texts, .. } = running;
    Ok(Prepared {
        ended,
        entries,
        size,
        lock,
        last: texts.in_journal,
    })
}
