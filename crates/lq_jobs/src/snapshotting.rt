ghost use Rattle.std.specs.Prelude.{◌≡◌, Err, IfErr, IfOk, IfSome, Ok, true};
ghost use Rattle.lq_cli.specs.declared.line.Job.TheVariants as job;
ghost use Rattle.lq_commands.specs.Outputs.{TellsText};
ghost use Rattle.lq_commands.specs.Refusals.{IsFault, ends, fault_status};
ghost use Rattle.lq_commands.specs.Works.{IsReady};
ghost use Rattle.lq_commands.specs.declared.given.Given.{Given};
ghost use Rattle.lq_db.specs.Db.{IsDb, IsNew, disk_in, engine_in, state};
ghost use Rattle.lq_entries.specs.Load.{catalogue_of};
ghost use Rattle.lq_report.specs.Output.{snapshot_text};
ghost use Rattle.lq_store.specs.Executor.{kept};
ghost use Rattle.lq_tell.specs.declared.status.Status.TheVariants as status;
ghost use Rattle.lq_jobs.specs.Bytes.{most_bytes};
ghost use Rattle.lq_jobs.specs.Worked.{WorkedOn};

use crate::opening::{LIMIT, Worked, load_status};
use lq_base::Dialect;
use lq_commands::{check_lock, fault_answer};
use lq_db::Db;
use lq_engine::Engine;
use lq_model::{SqlText, StoreFault};
use lq_outside::{Disk, LoadRefused};
use lq_report::snapshot_text;
use lq_snap::Snap;
use lq_store::{Executor, States};
use lq_tell::{Done, Status};
use std::alloc::Global;

/// Loads the database of a disk, and writes it as a state into its journal, where the lock is free and
/// a transaction stands behind the last state.
pub fn snapshot_on<D: Disk, P: SqlText + Drop + Copy>(
    alloc: Global,
    disk: D,
    sql: P,
    dialect: Dialect,
) -> Worked<D>
    requires sql { P.dialect ≡ dialect }
    ensures worked { (given : Given) → given.options.dialect ≡ dialect
        → WorkedOn D.told D.faults D.crashes job.Snapshot given disk result.done result.disk }
{
    match Db::<D, P, Engine>::load(alloc, disk, dialect, sql, LIMIT, &Snap) {
        Ok(db) => snapshot_in(alloc, db, &Snap, dialect),
        Err(refused) => {
            let LoadRefused { disk, fault } = refused;
            Worked {
                disk,
                done: Err(load_status(fault)),
            }
        }
    }
}

fn snapshot_in<D: Disk, P: SqlText + Drop, E: Executor + Drop, W: States<Engine = E>>(
    alloc: Global,
    db: Db<D, P, E>,
    states: &W,
    dialect: Dialect,
) -> Worked<D>
    requires valid { IsDb P.dialect (D.told (disk_in db)) (D.crashes (disk_in db))
        (E.held (engine_in db)) db }
    requires ready { IsReady dialect (state (D.told (disk_in db)) (E.held (engine_in db)) db) }
    requires new { IsNew dialect most_bytes db }
    requires catalogue { IfSome (D.told (disk_in db)) (λ bytes.
        catalogue_of dialect most_bytes bytes ≡ Ok (kept (E.held (engine_in db)))) }
    ensures worked { (given : Given) → given.options.dialect ≡ dialect
        → WorkedOn D.told D.faults D.crashes job.Snapshot given (disk_in db) result.done
        result.disk }
{
    let mut db = db;
    match check_lock(alloc, dialect, &db) {
        Ok(()) => {
            let wrote = db.snapshot(states);
            let done = told(alloc, wrote);
            Worked {
                disk: db.into_disk(),
                done,
            }
        }
        Err(status) => Worked {
            disk: db.into_disk(),
            done: Err(status),
        },
    }
}

// What is told of it: the size of the state's entry, 0 where none was needed.
fn told(alloc: Global, wrote: Result<u64, StoreFault>) -> Result<Done, Status>
    ensures text { IfOk wrote (λ size. IfOk result (TellsText (snapshot_text size))) }
    ensures fault { IfErr wrote (λ fault. IfOk result
        (λ done. done.status ≡ fault_status fault)) }
    ensures ends { IfOk result (λ done. ends done.status ≡ true) }
    ensures fails { IfErr result IsFault }
    ensures cause { IfErr wrote (λ fault. IfErr result (λ s. s ≡ fault_status fault)) }
    ensures disk { result ≡ Err status.DiskFault → wrote ≡ Err StoreFault.Disk }
{
    match wrote {
        Ok(size) => {
            let text = snapshot_text(alloc, size)?;
            Ok(Done::with(alloc, text))
        }
        Err(fault) => fault_answer(alloc, fault),
    }
}
