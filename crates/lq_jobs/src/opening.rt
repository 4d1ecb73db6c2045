ghost use Rattle.std.specs.List.{All};
ghost use Rattle.std.specs.Prelude.{◌≡◌, ◌≤◌, IfSome, Ok, true};
ghost use Rattle.lq_base.specs.Number.{char_count};
ghost use Rattle.lq_changelog.specs.Gathers.{HasShortTexts};
ghost use Rattle.lq_commands.specs.Stamp.{ReadOnce, stamp_of};
ghost use Rattle.lq_commands.specs.Works.{IsReady};
ghost use Rattle.lq_db.specs.Db.{IsDb, IsNew, disk_in, engine_in, state};
ghost use Rattle.lq_entries.specs.Load.{catalogue_of};
ghost use Rattle.lq_kinds.specs.ReadFor.{AreFor};
ghost use Rattle.lq_store.specs.Executor.{kept};
ghost use Rattle.lq_jobs.specs.Bytes.{given_at, load_status, most_bytes};
ghost use Rattle.lq_jobs.specs.Kinds.{ReadAtMostOnce};
ghost use Rattle.lq_jobs.specs.Jobs.{is_on_store, job_tag};
ghost use Rattle.lq_jobs.specs.Worked.{WorkedOn};

use lq_cli::Job;
use lq_commands::{Asked, stamped};
use lq_db::Db;
use lq_engine::Engine;
use lq_journal::LoadFault;
use lq_model::SqlText;
use lq_outside::{Clock, Disk, LoadRefused};
use lq_rehearsal::run_job;
use lq_snap::Snap;
use lq_store::Executor;
use lq_tell::{Done, Status};
use std::alloc::Global;

/// The greatest size of a database file.
pub const LIMIT: u64 = 268_435_456;

/// A disk, and what the command that worked on it did.
#[derive(Drop)]
pub struct Worked<D: Disk> {
    pub disk: D,
    pub done: Result<Done, Status>,
}

/// The status of a fault of loading.
pub fn load_status(fault: LoadFault) -> Status
    ensures { result ≡ load_status fault }
{
    match fault {
        LoadFault::Disk => Status::DiskFault,
        LoadFault::Damaged { at } => Status::Damaged { at },
        LoadFault::OutOfMemory => Status::OutOfMemory,
    }
}

/// Loads the database of a disk, and does the job there.
pub fn on_disk<D: Disk, C: Clock, P: SqlText + Drop + Copy>(
    alloc: Global,
    disk: D,
    sql: P,
    job: &Job,
    asked: Asked,
    who: &str,
    clock: &mut C,
) -> Worked<D>
    requires sql { P.dialect ≡ asked.options.dialect }
    requires read { AreFor asked.options.dialect asked.changelog }
    requires short { All HasShortTexts asked.changelog.sets }
    requires own { is_on_store job.now ≡ true }
    requires tag { IfSome (job_tag job.now) (λ tag. char_count tag ≤ 255) }
    ensures worked { WorkedOn D.told D.faults D.crashes job.now
        (given_at asked (stamp_of who.now (C.last clock.new))) disk result.done result.disk }
    ensures once { ReadAtMostOnce (C.to_come clock.old) (C.to_come clock.new) (C.last clock.new) }
{
    match Db::<D, P, Engine>::load(alloc, disk, asked.options.dialect, sql, LIMIT, &Snap) {
        Ok(db) => on_database(alloc, db, sql, job, asked, who, clock),
        Err(refused) => {
            let LoadRefused { disk, fault } = refused;
            Worked {
                disk,
                done: Err(load_status(fault)),
            }
        }
    }
}

fn on_database<D: Disk, C: Clock, P: SqlText + Drop + Copy, E: Executor + Drop>(
    alloc: Global,
    db: Db<D, P, E>,
    sql: P,
    job: &Job,
    asked: Asked,
    who: &str,
    clock: &mut C,
) -> Worked<D>
    requires valid { IsDb P.dialect (D.told (disk_in db)) (D.crashes (disk_in db))
        (E.held (engine_in db)) db }
    requires ready { IsReady asked.options.dialect
        (state (D.told (disk_in db)) (E.held (engine_in db)) db) }
    requires new { IsNew asked.options.dialect most_bytes db }
    requires catalogue { IfSome (D.told (disk_in db)) (λ bytes.
        catalogue_of asked.options.dialect most_bytes bytes ≡ Ok (kept (E.held (engine_in db)))) }
    requires sql { P.dialect ≡ asked.options.dialect }
    requires read { AreFor asked.options.dialect asked.changelog }
    requires short { All HasShortTexts asked.changelog.sets }
    requires own { is_on_store job.now ≡ true }
    requires tag { IfSome (job_tag job.now) (λ tag. char_count tag ≤ 255) }
    ensures worked { WorkedOn D.told D.faults D.crashes job.now
        (given_at asked (stamp_of who.now (C.last clock.new))) (disk_in db) result.done
        result.disk }
    ensures once { ReadOnce (C.to_come clock.old) (C.to_come clock.new) (C.last clock.new) }
{
    let mut db = db;
    match stamped(alloc, asked, who, clock) {
        Ok(given) => {
            let done = run_job(alloc, job, given, &mut db, &sql);
            Worked {
                disk: db.into_disk(),
                done,
            }
        }
        Err(status) => Worked {
            disk: db.into_disk(),
            done: Err(status),
        },
    }
}
