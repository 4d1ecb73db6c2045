ghost use Rattle.std.specs.List.{All};
ghost use Rattle.std.specs.Prelude.{◌≡◌, ◌≤◌, ◌⊎◌, Err, IfErr, IfOk, IfSome, List, Ok, Option, Some, false, length, ℕ};
ghost use Rattle.lq_changelog.specs.Gathers.{HasShortTexts};
ghost use Rattle.lq_commands.specs.Outputs.{TellsJob};
ghost use Rattle.lq_commands.specs.Stamp.{ReadOnce, stamp_of};
ghost use Rattle.lq_commands.specs.Refusals.{Answers};
ghost use Rattle.lq_commands.specs.Works.{IsReady, OnIts, TellsRoom};
ghost use Rattle.lq_commands.specs.declared.given.Given.{Given};
ghost use Rattle.lq_kinds.specs.ReadFor.{AreFor};
ghost use Rattle.lq_outside.specs.Forms.{Rose};
ghost use Rattle.lq_outside.specs.Crash.{LeavesOnly};
ghost use Rattle.lq_tell.specs.declared.status.Status.TheVariants as status;
ghost use Rattle.lq_base.specs.declared.dialect.Dialect.{Dialect};
ghost use Rattle.lq_cli.specs.declared.line.Job.{Job};
ghost use Rattle.lq_db.specs.Db.{IsDb, disk_in, engine_in, state};
ghost use Rattle.lq_tell.specs.declared.done.Done.{Done};
ghost use Rattle.lq_tell.specs.declared.status.Status.{Status};
ghost use Rattle.lq_track.specs.Database.{Database};
ghost use Rattle.lq_jobs.specs.Bytes.{IsDamagedAt, OnFile, TellsDamage, TellsRoomOn, given_at, IsNoCopy, copied, copy_status, job_of};
ghost use Rattle.lq_jobs.specs.Kinds.{ReadAtMostOnce, IsOfDatabase};
ghost use Rattle.lq_jobs.specs.Jobs.{job_calls, job_refusal};
ghost use Rattle.lq_jobs.specs.Worked.{FailsAt};
ghost use Rattle.lq_turns.specs.Stops.{is_mark};

use crate::opening::{LIMIT, load_status};
use lq_base::Target;
use lq_commands::{Asked, Given, print_rollback, print_update, stamped};
use lq_db::Db;
use lq_engine::Engine;
use lq_model::SqlText;
use lq_outside::{Clock, Disk, SureDisk};
use lq_snap::Snap;
use lq_store::{Executor, Store};
use lq_tell::{Done, Status};
use std::alloc::Global;

/// Which statements are to be printed.
#[derive(Clone, Copy)]
pub enum Printing<'a> {
    /// Those of an update.
    Update,
    /// Those of a rollback.
    Rollback(&'a Target),
}

/// Loads a copy of the disk's database in memory, and gives the statements that the command runs
/// there. Nothing is written to the disk.
pub fn on_copy<D: Disk, C: Clock, P: SqlText + Drop + Copy>(
    alloc: Global,
    disk: &mut D,
    sql: P,
    printing: Printing<'_>,
    asked: Asked,
    who: &str,
    clock: &mut C,
) -> Result<Done, Status>
    requires sql { P.dialect ≡ asked.options.dialect }
    requires read { AreFor asked.options.dialect asked.changelog }
    requires short { All HasShortTexts asked.changelog.sets }
    ensures answers { OnFile asked.options.dialect (D.told disk.old) (λ database.
        Answers
        (job_refusal (job_of printing.entry) (given_at asked (stamp_of who.now (C.last clock.new)))
        database) result) }
    ensures tells { OnFile asked.options.dialect (D.told disk.old) (λ database.
        TellsJob (job_of printing.entry) (given_at asked (stamp_of who.now (C.last clock.new)))
        database result) }
    ensures room { IfOk result (λ done.
        OnFile asked.options.dialect (D.told disk.old) (λ database.
        TellsRoomOn asked.options.dialect
        (job_calls (job_of printing.entry) (given_at asked (stamp_of who.now (C.last clock.new)))
        database) database (D.told disk.old) done.status)) }
    ensures told { D.told disk.new ≡ D.told disk.old }
    ensures any_moment { LeavesOnly (D.crashes disk.old) (D.crashes disk.new)
        (D.crashes disk.old).leaves }
    ensures damaged { TellsDamage asked.options.dialect (D.told disk.old) result }
    ensures fails { (at : ℕ)
        → IsDamagedAt asked.options.dialect (D.told disk.old) at
        → FailsAt at result }
    ensures kind { IsOfDatabase result }
    ensures later { D.faults disk.old ≤ D.faults disk.new }
    ensures fault { result ≡ Err status.DiskFault
        → Rose (D.faults disk.old) (D.faults disk.new) }
    ensures once { ReadAtMostOnce (C.to_come clock.old) (C.to_come clock.new) (C.last clock.new) }
{
    match copy_of(alloc, disk) {
        Ok(copy) => on_bytes(alloc, copy, sql, printing, asked, who, clock),
        Err(status) => Err(status),
    }
}

// Does it on the database of a disk in memory.
fn on_bytes<D: Disk + Drop, C: Clock, P: SqlText + Drop + Copy>(
    alloc: Global,
    copy: D,
    sql: P,
    printing: Printing<'_>,
    asked: Asked,
    who: &str,
    clock: &mut C,
) -> Result<Done, Status>
    requires sql { P.dialect ≡ asked.options.dialect }
    requires read { AreFor asked.options.dialect asked.changelog }
    requires short { All HasShortTexts asked.changelog.sets }
    ensures answers { OnFile asked.options.dialect (D.told copy) (λ database.
        Answers
        (job_refusal (job_of printing.entry) (given_at asked (stamp_of who.now (C.last clock.new)))
        database) result) }
    ensures tells { OnFile asked.options.dialect (D.told copy) (λ database.
        TellsJob (job_of printing.entry) (given_at asked (stamp_of who.now (C.last clock.new)))
        database result) }
    ensures room { IfOk result (λ done.
        OnFile asked.options.dialect (D.told copy) (λ database.
        TellsRoomOn asked.options.dialect
        (job_calls (job_of printing.entry) (given_at asked (stamp_of who.now (C.last clock.new)))
        database) database (D.told copy) done.status)) }
    ensures damaged { TellsDamage asked.options.dialect (D.told copy) result }
    ensures fails { (at : ℕ)
        → IsDamagedAt asked.options.dialect (D.told copy) at
        → FailsAt at result }
    ensures kind { IsOfDatabase result }
    ensures sure { result ≡ Err status.DiskFault → ⊥ }
    ensures once { ReadAtMostOnce (C.to_come clock.old) (C.to_come clock.new) (C.last clock.new) }
{
    match Db::<D, P, Engine>::load(alloc, copy, asked.options.dialect, sql, LIMIT, &Snap) {
        Ok(db) => on_loaded(alloc, db, sql, printing, asked, who, clock),
        Err(refused) => Err(copy_status(load_status(refused.fault))),
    }
}

fn on_loaded<D: Disk + Drop, C: Clock, P: SqlText + Drop + Copy, E: Executor + Drop>(
    alloc: Global,
    db: Db<D, P, E>,
    sql: P,
    printing: Printing<'_>,
    asked: Asked,
    who: &str,
    clock: &mut C,
) -> Result<Done, Status>
    requires valid { IsDb P.dialect (D.told (disk_in db)) (D.crashes (disk_in db))
        (E.held (engine_in db)) db }
    requires ready { IsReady asked.options.dialect
        (state (D.told (disk_in db)) (E.held (engine_in db)) db) }
    requires sql { P.dialect ≡ asked.options.dialect }
    requires read { AreFor asked.options.dialect asked.changelog }
    requires short { All HasShortTexts asked.changelog.sets }
    ensures answers { OnIts asked.options.dialect
        (state (D.told (disk_in db)) (E.held (engine_in db)) db) (λ database.
        Answers
        (job_refusal (job_of printing.entry)
        (given_at asked (stamp_of who.now (C.last clock.new))) database) result) }
    ensures tells { OnIts asked.options.dialect
        (state (D.told (disk_in db)) (E.held (engine_in db)) db) (λ database.
        TellsJob (job_of printing.entry) (given_at asked (stamp_of who.now (C.last clock.new)))
        database result) }
    ensures room { IfOk result (λ done.
        OnIts asked.options.dialect (state (D.told (disk_in db)) (E.held (engine_in db)) db)
        (λ database.
        TellsRoom asked.options.dialect
        (job_calls (job_of printing.entry)
        (given_at asked (stamp_of who.now (C.last clock.new))) database) database
        (state (D.told (disk_in db)) (E.held (engine_in db)) db) done.status)) }
    ensures whole { (told : Option (List ℕ)) → TellsDamage asked.options.dialect told result }
    ensures kind { IsOfDatabase result }
    ensures sure { result ≡ Err status.DiskFault → ⊥ }
    ensures once { ReadOnce (C.to_come clock.old) (C.to_come clock.new) (C.last clock.new) }
{
    let mut db = db;
    match stamped(alloc, asked, who, clock) {
        Ok(given) => in_memory(print_on(alloc, given, printing, &mut db, &sql)),
        Err(status) => Err(status),
    }
}

fn print_on<S: Store, P: SqlText>(
    alloc: Global,
    given: Given,
    printing: Printing<'_>,
    store: &mut S,
    sql: &P,
) -> Result<Done, Status>
    requires valid { S.valid store.old }
    requires ready { IsReady given.options.dialect (S.state store.old) }
    requires sql { P.dialect ≡ given.options.dialect }
    requires read { AreFor given.options.dialect given.changelog }
    requires short { All HasShortTexts given.changelog.sets }
    requires moment { given.stamp.reading ≤ 253402300799999 }
    requires name { is_mark given.stamp.who ≡ false }
    ensures answers { OnIts given.options.dialect (S.state store.old)
        (λ database. Answers (job_refusal (job_of printing.entry) given database) result) }
    ensures tells { OnIts given.options.dialect (S.state store.old)
        (λ database. TellsJob (job_of printing.entry) given database result) }
    ensures room { IfOk result (λ done.
        OnIts given.options.dialect (S.state store.old) (λ database.
        TellsRoom given.options.dialect (job_calls (job_of printing.entry) given database) database
        (S.state store.old) done.status)) }
{
    match printing {
        Printing::Update => print_update(alloc, given, store, sql),
        Printing::Rollback(target) => print_rollback(alloc, given, target, store, sql),
    }
}

fn in_memory(done: Result<Done, Status>) -> Result<Done, Status>
    ensures copied { result ≡ copied done }
    ensures refused { (refused : Option Status) → Answers refused done
        → Answers refused result }
    ensures tells { (job : Job) (given : Given) (database : Database)
        → TellsJob job given database done
        → TellsJob job given database result }
    ensures ended { (ended : Done) → result ≡ Ok ended → done ≡ Ok ended }
    ensures sure { result ≡ Err status.DiskFault → ⊥ }
    ensures kind { IsOfDatabase done → IsOfDatabase result }
    ensures whole { (dialect : Dialect) (told : Option (List ℕ))
        → TellsDamage dialect told done
        → TellsDamage dialect told result }
{
    match done {
        Ok(done) => Ok(done),
        Err(status) => Err(copy_status(status)),
    }
}

/// A fault of the disk in memory is want of memory.
pub fn copy_status(status: Status) -> Status
    ensures { result ≡ copy_status status }
{
    match status {
        Status::DiskFault => Status::OutOfMemory,
        status => status,
    }
}

// A disk in memory with the same bytes. A file that is longer than a journal may be is damaged there,
// and not read.
fn copy_of<D: Disk>(alloc: Global, disk: &mut D) -> Result<SureDisk, Status>
    ensures copied { IfOk result
        (λ copy. IfSome (D.told disk.old)
        (λ bytes. ⟦<SureDisk as Disk>⟧.told copy ≡ Some bytes)) }
    ensures refused { IfErr result (IsNoCopy (D.told disk.old)) }
    ensures told { D.told disk.new ≡ D.told disk.old }
    ensures any_moment { LeavesOnly (D.crashes disk.old) (D.crashes disk.new)
        (D.crashes disk.old).leaves }
    ensures later { D.faults disk.old ≤ D.faults disk.new }
    ensures failed { result ≡ Err status.DiskFault
        → Rose (D.faults disk.old) (D.faults disk.new) }
    ensures unfailed { (result ≡ Err status.DiskFault) ⊎
        (D.faults disk.new ≡ D.faults disk.old) }
{
    match disk.size() {
        Ok(size) => copy_sized(alloc, disk, size),
        Err(_) => Err(Status::DiskFault),
    }
}

fn copy_sized<D: Disk>(alloc: Global, disk: &mut D, size: u64) -> Result<SureDisk, Status>
    requires size { IfSome (D.told disk.old) (λ bytes. size ≡ length bytes) }
    ensures copied { IfOk result
        (λ copy. IfSome (D.told disk.old)
        (λ bytes. ⟦<SureDisk as Disk>⟧.told copy ≡ Some bytes)) }
    ensures refused { IfErr result (IsNoCopy (D.told disk.old)) }
    ensures told { D.told disk.new ≡ D.told disk.old }
    ensures any_moment { LeavesOnly (D.crashes disk.old) (D.crashes disk.new)
        (D.crashes disk.old).leaves }
    ensures later { D.faults disk.old ≤ D.faults disk.new }
    ensures failed { result ≡ Err status.DiskFault
        → Rose (D.faults disk.old) (D.faults disk.new) }
    ensures unfailed { (result ≡ Err status.DiskFault) ⊎
        (D.faults disk.new ≡ D.faults disk.old) }
{
    if size > LIMIT {
        return Err(Status::Damaged { at: LIMIT });
    }
    let bytes = read_whole(alloc, disk, size)?;
    Ok(SureDisk::new(bytes))
}

// The bytes of a disk that has so many.
fn read_whole<D: Disk>(alloc: Global, disk: &mut D, size: u64) -> Result<Vec<u8>, Status>
    requires size { IfSome (D.told disk.old) (λ bytes. size ≡ length bytes) }
    ensures bytes { IfOk result (λ bytes. IfSome (D.told disk.old)
        (λ told. told ≡ bytes.items)) }
    ensures refused { IfErr result (IsNoCopy (D.told disk.old)) }
    ensures told { D.told disk.new ≡ D.told disk.old }
    ensures any_moment { LeavesOnly (D.crashes disk.old) (D.crashes disk.new)
        (D.crashes disk.old).leaves }
    ensures later { D.faults disk.old ≤ D.faults disk.new }
    ensures failed { result ≡ Err status.DiskFault
        → Rose (D.faults disk.old) (D.faults disk.new) }
    ensures unfailed { (result ≡ Err status.DiskFault) ⊎
        (D.faults disk.new ≡ D.faults disk.old) }
{
    let mut bytes = match vec![in alloc; 0u8; size as usize] {
        Ok(bytes) => bytes,
        Err(_) => return Err(Status::OutOfMemory),
    };
    match disk.read(0, &mut bytes) {
        Ok(()) => Ok(bytes),
        Err(_) => Err(Status::DiskFault),
    }
}
