ghost use Rattle.std.specs.Option.{option_copied};
ghost use Rattle.std.specs.Prelude.{◌≡◌, IfOk, IfSome, Ok};
ghost use Rattle.lq_cli.specs.declared.line.Job.TheVariants as job;
ghost use Rattle.lq_commands.specs.Works.{IsReady};
ghost use Rattle.lq_db.specs.Db.{IsDb, IsNew, disk_in, engine_in, state, last_text};
ghost use Rattle.lq_entries.specs.Load.{catalogue_of};
ghost use Rattle.lq_kinds.specs.ReadFor.{AreFor};
ghost use Rattle.lq_store.specs.Executor.{kept};
ghost use Rattle.lq_jobs.specs.Bytes.{given_at, most_bytes};
ghost use Rattle.lq_jobs.specs.Worked.{WorkedOn};
ghost use Rattle.lq_turns.specs.declared.stamp.Stamp.{Stamp};

use crate::opening::{LIMIT, Worked, load_status};
use lq_base::{NoMemory, Text};
use lq_commands::Asked;
use lq_db::Db;
use lq_engine::Engine;
use lq_model::SqlText;
use lq_outside::{Disk, LoadRefused};
use lq_snap::Snap;
use lq_store::Executor;
use lq_tell::Status;
use lq_undoing::undo;
use std::alloc::Global;

/// Loads the database of a disk, and takes back the part of a changeset that a stop left there without
/// a row.
pub fn undo_on<D: Disk, P: SqlText + Drop + Copy>(
    alloc: Global,
    disk: D,
    sql: P,
    asked: Asked,
) -> Worked<D>
    requires sql { P.dialect ≡ asked.options.dialect }
    requires read { AreFor asked.options.dialect asked.changelog }
    ensures worked { (stamp : Stamp)
        → WorkedOn D.told D.faults D.crashes job.UndoUnrecorded (given_at asked stamp)
        disk result.done result.disk }
{
    match Db::<D, P, Engine>::load(alloc, disk, asked.options.dialect, sql, LIMIT, &Snap) {
        Ok(db) => undo_in(alloc, db, sql, asked),
        Err(refused) => {
            let LoadRefused { disk, fault } = refused;
            Worked {
                disk,
                done: Err(load_status(fault)),
            }
        }
    }
}

fn undo_in<D: Disk, P: SqlText + Drop + Copy, E: Executor + Drop>(
    alloc: Global,
    db: Db<D, P, E>,
    sql: P,
    asked: Asked,
) -> Worked<D>
    requires valid { IsDb P.dialect (D.told (disk_in db)) (D.crashes (disk_in db))
        (E.held (engine_in db)) db }
    requires ready { IsReady asked.options.dialect
        (state (D.told (disk_in db)) (E.held (engine_in db)) db) }
    requires new { IsNew asked.options.dialect most_bytes db }
    requires catalogue { IfSome (D.told (disk_in db)) (λ bytes.
        catalogue_of asked.options.dialect most_bytes bytes ≡ Ok (kept (E.held (engine_in db)))) }
    requires sql { P.dialect ≡ asked.options.dialect }
    requires read { AreFor asked.options.dialect asked.changelog }
    ensures worked { (stamp : Stamp)
        → WorkedOn D.told D.faults D.crashes job.UndoUnrecorded (given_at asked stamp)
        (disk_in db) result.done result.disk }
{
    let mut db = db;
    match last_in(alloc, &db) {
        Ok(last) => {
            let done = undo(
                alloc,
                &asked.options,
                &asked.changelog,
                &last,
                &mut db,
                &sql,
            );
            Worked {
                disk: db.into_disk(),
                done,
            }
        }
        Err(_) => Worked {
            disk: db.into_disk(),
            done: Err(Status::OutOfMemory),
        },
    }
}

// A copy of the last text of its journal.
fn last_in<D: Disk, P: SqlText + Drop, E: Executor + Drop>(
    alloc: Global,
    db: &Db<D, P, E>,
) -> Result<Option<Text>, NoMemory>
    requires valid { IsDb P.dialect (D.told (disk_in db.now)) (D.crashes (disk_in db.now))
        (E.held (engine_in db.now)) db.now }
    ensures { IfOk result (λ last. IfSome
        (state (D.told (disk_in db.now)) (E.held (engine_in db.now)) db.now).entries
        (λ there. last ≡ last_text there)) }
{
    match db.last_text() {
        Some(text) => {
            let last = text.copy(alloc)?;
            Ok(Some(last))
        }
        None => Ok(None),
    }
}
