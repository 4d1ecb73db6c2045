ghost use Rattle.std.specs.Option.{option_map};
ghost use Rattle.std.specs.Prelude.{◌≡◌, Err, IfOk, true};
ghost use Rattle.lq_cli.specs.declared.line.Job.TheVariants as job;
ghost use Rattle.lq_commands.specs.Outputs.{TellsText};
ghost use Rattle.lq_commands.specs.Refusals.{Answers};
ghost use Rattle.lq_commands.specs.Works.{OnIts};
ghost use Rattle.lq_commands.specs.declared.given.Given.{Given};
ghost use Rattle.lq_db.specs.Db.{disk_in};
ghost use Rattle.lq_generate.specs.Faults.{fault_at};
ghost use Rattle.lq_generate.specs.Generated.{generated_text};
ghost use Rattle.lq_kinds.specs.ChangeSets.{is_label};
ghost use Rattle.laws_generate.specs.Again.{TextComesAgain};
ghost use Rattle.lq_tell.specs.declared.status.Status.TheVariants as status;
ghost use Rattle.lq_jobs.specs.Bytes.{IsLoadedFrom, IsWellWritten, state_in};
ghost use Rattle.lq_jobs.specs.Worked.{WorkedOn};
ghost use Rattle.lq_track.specs.Database.{users_of};

use crate::opening::{LIMIT, Worked, load_status};
use laws_generate::laws::{it_comes_again, it_is_written};
use lq_base::Dialect;
use lq_commands::SESSION;
use lq_db::Db;
use lq_engine::Engine;
use lq_generate::{GenerateFault, generate};
use lq_model::SqlText;
use lq_named::names_hold;
use lq_outside::{Disk, LoadRefused};
use lq_snap::Snap;
use lq_store::Store;
use lq_tell::{Done, Status};
use std::alloc::Global;

/// Loads the database of a disk, and gives the changelog that makes the users' objects there, whatever
/// holds the lock (Liquibase's documentation, "generate-changelog"). Nothing is written to the disk.
pub fn generate_on<D: Disk, P: SqlText + Drop>(
    alloc: Global,
    disk: D,
    sql: P,
    dialect: Dialect,
    author: &str,
) -> Worked<D>
    requires sql { P.dialect ≡ dialect }
    ensures worked { (given : Given) → given.options.dialect ≡ dialect
        → WorkedOn D.told D.faults D.crashes (job.Generate author.now) given
        disk result.done result.disk }
{
    match Db::<D, P, Engine>::load(alloc, disk, dialect, sql, LIMIT, &Snap) {
        Ok(db) => on_loaded(alloc, db, dialect, author),
        Err(refused) => {
            let LoadRefused { disk, fault } = refused;
            Worked {
                disk,
                done: Err(load_status(fault)),
            }
        }
    }
}

fn on_loaded<D: Disk, P: SqlText + Drop>(
    alloc: Global,
    db: Db<D, P, Engine>,
    dialect: Dialect,
    author: &str,
) -> Worked<D>
    requires loaded { IsLoadedFrom P.dialect dialect (D.told (disk_in db)) (D.crashes (disk_in db))
        db }
    ensures worked { (given : Given) → given.options.dialect ≡ dialect
        → WorkedOn D.told D.faults D.crashes (job.Generate author.now) given
        (disk_in db) result.done result.disk }
{
    let done = on_store(alloc, &db, dialect, author);
    Worked {
        disk: db.into_disk(),
        done,
    }
}

// Of what the database holds that was loaded.
fn on_store<D: Disk, P: SqlText + Drop>(
    alloc: Global,
    db: &Db<D, P, Engine>,
    dialect: Dialect,
    author: &str,
) -> Result<Done, Status>
    requires loaded { IsLoadedFrom P.dialect dialect (D.told (disk_in db.now))
        (D.crashes (disk_in db.now)) db.now }
    ensures answers { OnIts dialect (state_in (D.told (disk_in db.now)) db.now)
        (λ database. Answers (option_map status.NotWritable
        (fault_at dialect author.now database.users)) result) }
    ensures tells { OnIts dialect (state_in (D.told (disk_in db.now)) db.now)
        (λ database. IfOk result (TellsText (generated_text dialect author.now database.users))) }
    ensures again { OnIts dialect (state_in (D.told (disk_in db.now)) db.now) (λ database.
        is_label author.now ≡ true
        → IfOk result (λ _. TextComesAgain dialect database.users
        (generated_text dialect author.now database.users))) }
    ensures sure { result ≡ Err status.DiskFault → ⊥ }
{
    it_is_written();
    it_comes_again();
    match db.look(SESSION) {
        Ok(engine) => generated(alloc, engine, dialect, author),
        Err(_) => Err(Status::OutOfMemory),
    }
}

// Of what the engine keeps.
fn generated(alloc: Global, engine: &Engine, dialect: Dialect, author: &str) -> Result<Done, Status>
    ensures answers { Answers (option_map status.NotWritable
        (fault_at dialect author.now (users_of engine.now.now))) result }
    ensures tells { IfOk result
        (TellsText (generated_text dialect author.now (users_of engine.now.now))) }
    ensures written { IfOk result
        (λ _. IsWellWritten dialect author.now (users_of engine.now.now)) }
    ensures sure { result ≡ Err status.DiskFault → ⊥ }
{
    let parts = engine.parts();
    names_hold(parts);
    match generate(alloc, dialect, parts, author) {
        Ok(text) => Ok(Done::with(alloc, text)),
        Err(GenerateFault::NotWritable(at)) => Err(Status::NotWritable(at)),
        Err(GenerateFault::OutOfMemory) => Err(Status::OutOfMemory),
    }
}
