ghost use Rattle.std.specs.List.{All};
ghost use Rattle.std.specs.Prelude.{◌≡◌, ◌≤◌, ◌⊎◌, Err, IfSome, List, None, Some, false, map, string_bytes, true, ℕ};
ghost use Rattle.lq_base.specs.Number.{char_count};
ghost use Rattle.lq_changelog.specs.Gathers.{HasShortTexts};
ghost use Rattle.lq_cli.specs.Line.{line_of};
ghost use Rattle.lq_cli.specs.declared.line.Job.TheVariants as job;
ghost use Rattle.lq_cli.specs.declared.line.Line.{Line};
ghost use Rattle.lq_commands.specs.Stamp.{stamp_of};
ghost use Rattle.lq_commands.specs.Works.{is_finished};
ghost use Rattle.lq_kinds.specs.ReadFor.{AreFor};
ghost use Rattle.lq_outside.specs.Forms.{Rose};
ghost use Rattle.lq_outside.specs.Crash.{Settled};
ghost use Rattle.lq_sources.specs.declared.fault.LoadFault.{LoadFault as Fault};
ghost use Rattle.lq_tell.specs.Texts.{status_done};
ghost use Rattle.lq_tell.specs.declared.status.Status.TheVariants as status;
ghost use Rattle.lq_cli.specs.Job.{goal_of};
ghost use Rattle.lq_jobs.specs.Asks.{Asks, AsksInVain, HasFault, HasNoForm, HasNoPart, IsFaultOf, IsUsage, asked_by, asked_tag, asks_drill, given_to, is_drill, loaded};
ghost use Rattle.lq_jobs.specs.Bytes.{IsDamagedAt, TellsDamage, given_at, job_of};
ghost use Rattle.lq_jobs.specs.Kinds.{ReadAtMostOnce, ReadUpTo, IsNotLoaded, IsOfFiles, IsOfWords};
ghost use Rattle.lq_drills.specs.Drilled.{AsksDrill, DoesDrill, DrilledBy, IsFormless, IsSettled};
ghost use Rattle.lq_jobs.specs.Jobs.{DoesLine, is_apart, is_on_store, is_own, job_tag};
ghost use Rattle.lq_jobs.specs.Run.{Crashes};
ghost use Rattle.lq_soak.specs.Soaked.{TellsSoakOf};
ghost use Rattle.lq_jobs.specs.Worked.{InVain, SnappedBy, Spares, UndoneBy, WorkedBy, WorkedOn, WorkedWith, has_missed};

use lq_base::{Dialect, Text};
use lq_cli::{Job, Line, WordsFault, read_words};
use lq_commands::Asked;
use lq_drills::drill;
use lq_expr::Options;
use lq_jobs::{
    Printing, Worked, changelog_of, file_status, generate_on, on_copy, on_disk, part_for,
    snapshot_on, undo_on,
};
use lq_kinds::Changelog;
use lq_model::SqlText;
use lq_my::My;
use lq_outside::{Clock, Disk, Files};
use lq_pg::Pg;
use lq_soak::{Seed, soak};
use lq_tell::{Done, Status};
use std::alloc::Global;

/// A disk, and what the command that worked on it did.
#[derive(Drop)]
pub struct Ending<D: Disk> {
    pub disk: D,
    pub done: Result<Done, Status>,
    /// The tag that a rollback goes back to, or an update on to.
    pub tag: Option<Text>,
}

/// The work of a command: all but writing its texts.
pub fn work<F: Files, D: Disk, C: Clock>(
    alloc: Global,
    words: &[String],
    who: &str,
    files: &mut F,
    disk: D,
    clock: &mut C,
) -> Ending<D>
    ensures usage { result.done ≡ Err status.Usage
        → IsUsage (map (λ word. string_bytes word) words.now) (F.told files.old)
        × (result.disk ≡ disk) }
    ensures usage_only { line_of (map (λ word. string_bytes word) words.now) ≡ None
        → (result.done ≡ Err status.Usage) ⊎ (result.done ≡ Err status.OutOfMemory) }
    ensures formless { HasNoForm (map (λ word. string_bytes word) words.now) (F.told files.old)
        → IsFormless result.done }
    ensures read { result.done ≡ Err status.ReadFault
        → Rose (F.faults files.old) (F.faults files.new) }
    ensures changelog { (fault : Fault)
        → result.done ≡ Err (status.Changelog fault)
        → IsFaultOf (map (λ word. string_bytes word) words.now) (F.told files.old) fault }
    ensures not_loaded { (fault : Fault)
        → HasFault (map (λ word. string_bytes word) words.now) (F.told files.old) fault
        → IsNotLoaded fault result.done }
    ensures kind { IsOfWords result.done }
    ensures untouched { IsOfFiles result.done → result.disk ≡ disk }
    ensures does { (asks : Asks (map (λ word. string_bytes word) words.now) (F.told files.old))
        → DoesLine asks.line.job
        (given_at (asked_by asks.line.options asks.changelog)
        (stamp_of who.now (C.last clock.new))) (D.told disk) result.done
        (D.told result.disk) }
    ensures any_moment { (asks : Asks (map (λ word. string_bytes word) words.now)
        (F.told files.old))
        → Crashes asks (stamp_of who.now (C.last clock.new)) (D.told disk) (D.crashes disk)
        (D.crashes result.disk) }
    ensures safe { (asks : Asks (map (λ word. string_bytes word) words.now) (F.told files.old))
        → is_own asks.line.job ≡ true
        → is_finished (status_done result.done) ≡ true
        → Settled (D.told result.disk) (D.crashes result.disk) }
    ensures damaged { (line : Line)
        → line_of (map (λ word. string_bytes word) words.now) ≡ Some line
        → TellsDamage line.options.dialect (D.told disk) result.done }
    ensures damaged_only { (line : Line) (at : ℕ)
        → line_of (map (λ word. string_bytes word) words.now) ≡ Some line
        → is_apart line.job ≡ false
        → IsDamagedAt line.options.dialect (D.told disk) at
        → Spares line.job at (D.told disk) result.done (D.told result.disk) }
    ensures missed { (line : Line)
        → line_of (map (λ word. string_bytes word) words.now) ≡ Some line
        → has_missed line.job result.done ≡ true
        → HasNoPart (F.told files.old) line × (result.disk ≡ disk) }
    ensures in_vain { AsksInVain (map (λ word. string_bytes word) words.now) (F.told files.old)
        → InVain result.done disk result.disk }
    ensures soaks { (line : Line)
        → line_of (map (λ word. string_bytes word) words.now) ≡ Some line
        → TellsSoakOf line.job line.options.dialect (stamp_of who.now (C.last clock.new))
        result.done }
    ensures off { (line : Line)
        → line_of (map (λ word. string_bytes word) words.now) ≡ Some line
        → is_apart line.job ≡ true
        → result.disk ≡ disk }
    ensures tag { (result.tag ≡ asked_tag (line_of (map (λ word. string_bytes word) words.now)))
        ⊎ (result.done ≡ Err status.OutOfMemory) }
    ensures later { D.faults disk ≤ D.faults result.disk }
    ensures fault { result.done ≡ Err status.DiskFault
        → Rose (D.faults disk) (D.faults result.disk) }
    ensures once { asks_drill (line_of (map (λ word. string_bytes word) words.now)) ≡ false
        → ReadAtMostOnce (C.to_come clock.old) (C.to_come clock.new) (C.last clock.new) }
    ensures reads { ReadUpTo 64 (C.to_come clock.old) (C.to_come clock.new) }
    ensures drills { (asks : AsksDrill (map (λ word. string_bytes word) words.now)
        (F.told files.old))
        → DoesDrill asks.line.options.dialect who.now asks.drill (C.to_come clock.old)
        (C.to_come clock.new) (D.told disk) (D.crashes disk) result.done (D.told result.disk)
        (D.crashes result.disk) }
    ensures settled { AsksDrill (map (λ word. string_bytes word) words.now) (F.told files.old)
        → IsSettled D.told D.faults D.crashes result.done result.disk }
    ensures undone { (asks : Asks (map (λ word. string_bytes word) words.now) (F.told files.old))
        → asks.line.job ≡ job.UndoUnrecorded
        → UndoneBy D.told D.faults D.crashes asks.line.options asks.changelog disk result.done
        result.disk }
    ensures snapped { (asks : Asks (map (λ word. string_bytes word) words.now) (F.told files.old))
        → asks.line.job ≡ job.Snapshot
        → SnappedBy D.told D.faults D.crashes asks.line.options.dialect disk result.done
        result.disk }
{
    match read_words(alloc, words) {
        Ok(line) => on_line(alloc, line, who, files, disk, clock),
        Err(WordsFault::Usage) => refused(disk, Status::Usage),
        Err(WordsFault::OutOfMemory) => refused(disk, Status::OutOfMemory),
    }
}

fn refused<D: Disk>(disk: D, status: Status) -> Ending<D>
    ensures disk { result.disk ≡ disk }
    ensures done { result.done ≡ Err status }
    ensures tag { result.tag ≡ None }
{
    Ending {
        disk,
        done: Err(status),
        tag: None,
    }
}

fn on_line<F: Files, D: Disk, C: Clock>(
    alloc: Global,
    line: Line,
    who: &str,
    files: &mut F,
    disk: D,
    clock: &mut C,
) -> Ending<D>
    requires tag { IfSome (job_tag line.job) (λ tag. char_count tag ≤ 255) }
    ensures read { result.done ≡ Err status.ReadFault
        → Rose (F.faults files.old) (F.faults files.new) }
    ensures worked { is_drill line.job ≡ false
        → WorkedBy D.told D.faults D.crashes (F.told files.old) (λ source. given_to source line)
        line.job line.options (stamp_of who.now (C.last clock.new)) disk result.done
        result.disk }
    ensures drilled { (runs : List ℕ)
        → line.job ≡ job.Drill runs
        → DrilledBy D.told D.faults D.crashes (F.told files.old) line.options.dialect line.path
        runs
        who.now (C.to_come clock.old) (C.to_come clock.new) disk result.done result.disk }
    ensures soaks { TellsSoakOf line.job line.options.dialect (stamp_of who.now (C.last clock.new))
        result.done }
    ensures tag { result.tag ≡ goal_of line.job }
    ensures once { is_drill line.job ≡ false
        → ReadAtMostOnce (C.to_come clock.old) (C.to_come clock.new) (C.last clock.new) }
{
    let Line {
        job,
        path,
        options,
        root,
        given,
    } = line;
    match &job {
        Job::Drill(runs) => {
            let path = path.as_str();
            let runs = runs.as_str();
            let Worked { disk, done } = drill(
                alloc,
                options.dialect,
                path,
                runs,
                who,
                files,
                disk,
                clock,
            );
            Ending {
                disk,
                done,
                tag: None,
            }
        }
        _ => on_command(
            alloc,
            job,
            options,
            &root,
            given.as_slice(),
            who,
            files,
            disk,
            clock,
        ),
    }
}

fn on_command<F: Files, D: Disk, C: Clock>(
    alloc: Global,
    job: Job,
    options: Options,
    root: &Option<Text>,
    given: &[(Text, Text)],
    who: &str,
    files: &mut F,
    disk: D,
    clock: &mut C,
) -> Ending<D>
    requires tag { IfSome (job_tag job) (λ tag. char_count tag ≤ 255) }
    requires no_drill { is_drill job ≡ false }
    ensures read { result.done ≡ Err status.ReadFault
        → Rose (F.faults files.old) (F.faults files.new) }
    ensures worked { WorkedBy D.told D.faults D.crashes (F.told files.old)
        (λ source. loaded source options.dialect given.now root.now) job options
        (stamp_of who.now (C.last clock.new)) disk result.done result.disk }
    ensures soaks { TellsSoakOf job options.dialect (stamp_of who.now (C.last clock.new))
        result.done }
    ensures tag { result.tag ≡ goal_of job }
    ensures once { ReadAtMostOnce (C.to_come clock.old) (C.to_come clock.new) (C.last clock.new) }
{
    let Worked { disk, done } = in_dialect(
        alloc, &job, options, root, given, who, files, disk, clock,
    );
    Ending {
        disk,
        done,
        tag: job.into_goal(),
    }
}

fn in_dialect<F: Files, D: Disk, C: Clock>(
    alloc: Global,
    job: &Job,
    options: Options,
    root: &Option<Text>,
    given: &[(Text, Text)],
    who: &str,
    files: &mut F,
    disk: D,
    clock: &mut C,
) -> Worked<D>
    requires tag { IfSome (job_tag job.now) (λ tag. char_count tag ≤ 255) }
    requires no_drill { is_drill job.now ≡ false }
    ensures read { result.done ≡ Err status.ReadFault
        → Rose (F.faults files.old) (F.faults files.new) }
    ensures worked { WorkedBy D.told D.faults D.crashes (F.told files.old)
        (λ source. loaded source options.dialect given.now root.now) job.now options
        (stamp_of who.now (C.last clock.new)) disk result.done result.disk }
    ensures soaks { TellsSoakOf job.now options.dialect (stamp_of who.now (C.last clock.new))
        result.done }
    ensures once { ReadAtMostOnce (C.to_come clock.old) (C.to_come clock.new) (C.last clock.new) }
{
    match options.dialect {
        Dialect::Postgresql => with_sql(
            alloc, Pg, job, options, root, given, who, files, disk, clock,
        ),
        Dialect::Mysql => with_sql(
            alloc, My, job, options, root, given, who, files, disk, clock,
        ),
    }
}

fn with_sql<F: Files, D: Disk, C: Clock, P: SqlText + Drop + Copy>(
    alloc: Global,
    sql: P,
    job: &Job,
    options: Options,
    root: &Option<Text>,
    given: &[(Text, Text)],
    who: &str,
    files: &mut F,
    disk: D,
    clock: &mut C,
) -> Worked<D>
    requires sql { P.dialect ≡ options.dialect }
    requires tag { IfSome (job_tag job.now) (λ tag. char_count tag ≤ 255) }
    requires no_drill { is_drill job.now ≡ false }
    ensures read { result.done ≡ Err status.ReadFault
        → Rose (F.faults files.old) (F.faults files.new) }
    ensures worked { WorkedBy D.told D.faults D.crashes (F.told files.old)
        (λ source. loaded source options.dialect given.now root.now) job.now options
        (stamp_of who.now (C.last clock.new)) disk result.done result.disk }
    ensures soaks { TellsSoakOf job.now options.dialect (stamp_of who.now (C.last clock.new))
        result.done }
    ensures once { ReadAtMostOnce (C.to_come clock.old) (C.to_come clock.new) (C.last clock.new) }
{
    match changelog_of(alloc, files, root, options.dialect, &sql, given) {
        Ok(changelog) => on_part(alloc, sql, job, options, changelog, who, disk, clock),
        Err(fault) => Worked {
            disk,
            done: Err(file_status(fault)),
        },
    }
}

// The files gave this changelog. Without a part of it to run nothing is opened.
fn on_part<D: Disk, C: Clock, P: SqlText + Drop + Copy>(
    alloc: Global,
    sql: P,
    job: &Job,
    options: Options,
    changelog: Changelog,
    who: &str,
    disk: D,
    clock: &mut C,
) -> Worked<D>
    requires sql { P.dialect ≡ options.dialect }
    requires read { AreFor options.dialect changelog }
    requires short { All HasShortTexts changelog.sets }
    requires tag { IfSome (job_tag job.now) (λ tag. char_count tag ≤ 255) }
    requires no_drill { is_drill job.now ≡ false }
    ensures worked { WorkedWith D.told D.faults D.crashes job.now options changelog
        (stamp_of who.now (C.last clock.new)) disk result.done result.disk }
    ensures soaks { TellsSoakOf job.now options.dialect (stamp_of who.now (C.last clock.new))
        result.done }
    ensures once { ReadAtMostOnce (C.to_come clock.old) (C.to_come clock.new) (C.last clock.new) }
{
    match part_for(job, changelog) {
        Some(changelog) => {
            let asked = Asked { changelog, options };
            on_job(alloc, sql, job, asked, who, disk, clock)
        }
        None => Worked {
            disk,
            done: Err(Status::NoTarget),
        },
    }
}

fn on_job<D: Disk, C: Clock, P: SqlText + Drop + Copy>(
    alloc: Global,
    sql: P,
    job: &Job,
    asked: Asked,
    who: &str,
    disk: D,
    clock: &mut C,
) -> Worked<D>
    requires sql { P.dialect ≡ asked.options.dialect }
    requires read { AreFor asked.options.dialect asked.changelog }
    requires short { All HasShortTexts asked.changelog.sets }
    requires tag { IfSome (job_tag job.now) (λ tag. char_count tag ≤ 255) }
    requires no_drill { is_drill job.now ≡ false }
    ensures worked { WorkedOn D.told D.faults D.crashes job.now
        (given_at asked (stamp_of who.now (C.last clock.new))) disk result.done result.disk }
    ensures soaks { TellsSoakOf job.now asked.options.dialect (stamp_of who.now (C.last clock.new))
        result.done }
    ensures once { ReadAtMostOnce (C.to_come clock.old) (C.to_come clock.new) (C.last clock.new) }
{
    if is_on_store(job) {
        return on_disk(alloc, disk, sql, job, asked, who, clock);
    }
    match job {
        Job::UpdateSql => printed(alloc, disk, sql, Printing::Update, asked, who, clock),
        Job::RollbackSql(target) => {
            let printing = Printing::Rollback(target);
            printed(alloc, disk, sql, printing, asked, who, clock)
        }
        Job::Generate(author) => {
            generate_on(alloc, disk, sql, asked.options.dialect, author.as_str())
        }
        Job::Soak { number, sets } => {
            let seed = Seed {
                number: *number,
                sets: *sets,
            };
            let done = soak(alloc, sql, asked.options.dialect, seed, who, clock);
            Worked { disk, done }
        }
        Job::UndoUnrecorded => undo_on(alloc, disk, sql, asked),
        Job::Snapshot => snapshot_on(alloc, disk, sql, asked.options.dialect),
        _ => unreachable!(),
    }
}

// It works on the database of the file itself, and needs no more than a store has.
fn is_on_store(job: &Job) -> bool
    ensures { result ≡ is_on_store job.now }
{
    match job {
        Job::Run(_) | Job::UpdateCount(_) | Job::UpdateTo(_) => true,
        Job::UpdateTestingRollback | Job::ClearSums | Job::History => true,
        _ => false,
    }
}

fn printed<D: Disk, C: Clock, P: SqlText + Drop + Copy>(
    alloc: Global,
    disk: D,
    sql: P,
    printing: Printing<'_>,
    asked: Asked,
    who: &str,
    clock: &mut C,
) -> Worked<D>
    requires sql { P.dialect ≡ asked.options.dialect }
    requires read { AreFor asked.options.dialect asked.changelog }
    requires short { All HasShortTexts asked.changelog.sets }
    ensures worked { WorkedOn D.told D.faults D.crashes (job_of printing.entry)
        (given_at asked (stamp_of who.now (C.last clock.new))) disk result.done result.disk }
    ensures once { ReadAtMostOnce (C.to_come clock.old) (C.to_come clock.new) (C.last clock.new) }
{
    let mut disk = disk;
    let done = on_copy(alloc, &mut disk, sql, printing, asked, who, clock);
    Worked { disk, done }
}
