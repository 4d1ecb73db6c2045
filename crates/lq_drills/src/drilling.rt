ghost use Rattle.std.specs.Int.{IsInRange};
ghost use Rattle.std.specs.List.{All};
ghost use Rattle.std.specs.Option.{option_map};
ghost use Rattle.std.specs.Prelude.{◌≡◌, ◌≤◌, Err, IfErr, IfOk, IfSome, IsTrue, None, Ok, Some, false, length, true};
ghost use Rattle.lq_commands.specs.Stamp.{clean};
ghost use Rattle.lq_commands.specs.Works.{IsReady};
ghost use Rattle.lq_db.specs.Db.{IsDb, IsNew, disk_in, engine_in, state};
ghost use Rattle.lq_drill.specs.Faults.{is_barred};
ghost use Rattle.lq_entries.specs.Load.{catalogue_of};
ghost use Rattle.lq_lines.specs.File.{is_run, lines_of};
ghost use Rattle.lq_outside.specs.Forms.{Rose};
ghost use Rattle.lq_players.specs.AnyCommand.{IsUnstarted, command_stands};
ghost use Rattle.lq_players.specs.AtOnce.{HasShortTag};
ghost use Rattle.lq_report.specs.Output.{drill_text};
ghost use Rattle.lq_sources.specs.Faults.{Finds};
ghost use Rattle.lq_sources.specs.declared.fault.LoadFault.TheVariants as load;
ghost use Rattle.lq_store.specs.Executor.{kept};
ghost use Rattle.lq_tell.specs.declared.status.Status.TheVariants as status;
ghost use Rattle.lq_jobs.specs.Bytes.{most_bytes};
ghost use Rattle.lq_drills.specs.Drilled.{DrilledBy, FindsDrill, IsDrill, IsEntrant, WorkedDrill, answer_code, came_code, drilled};
ghost use Rattle.lq_jobs.specs.Drills.{command_in, drill_in, drill_of, entrant_of, entrants_of, options_on, runs_in};
ghost use Rattle.lq_drills.specs.Players.{Begun, Joins, Plays, answers_in, drill_status};

use lq_back::turns_back_are_spelled;
use lq_base::{Command, Dialect, Items, NoMemory, Target, Text};
use lq_cli::{Job, Line};
use lq_commands::{Asked, clean, numbered_stamp};
use lq_db::Db;
use lq_drill::DrillFault;
use lq_engine::Engine;
use lq_expr::Options;
use lq_jobs::{Drilling, Entrant, LIMIT, Worked, changelog_of, file_status, load_status};
use lq_lines::{Lines, LinesFault, read_lines};
use lq_model::SqlText;
use lq_my::My;
use lq_outside::{Clock, Disk, Files, Found, LoadRefused};
use lq_pg::Pg;
use lq_players::{AnyCommand, drill_commands};
use lq_report::{Drilled, drill_text};
use lq_snap::Snap;
use lq_sources::LoadFault;
use lq_statement::laws::statements_read_back;
use lq_store::{Executor, Store};
use lq_tell::{Done, Status};
use lq_turns::Answer;
use std::alloc::Global;

/// The commands of a drill as players, in the order of their numbers.
#[derive(Drop)]
pub struct Cast {
    pub players: Vec<AnyCommand>,
    /// The command of each.
    pub commands: Items<Command>,
}

/// Reads the file of a drill at the path of `runs`, for the database of the dialect and path, and takes
/// the steps that it asks for.
pub fn drill<F: Files, D: Disk, C: Clock>(
    alloc: Global,
    dialect: Dialect,
    path: &str,
    runs: &str,
    who: &str,
    files: &mut F,
    disk: D,
    clock: &mut C,
) -> Worked<D>
    ensures read { result.done ≡ Err status.ReadFault
        → Rose (F.faults files.old) (F.faults files.new) }
    ensures drilled { DrilledBy D.told D.faults D.crashes (F.told files.old) dialect path.now
        runs.now who.now (C.to_come clock.old) (C.to_come clock.new) disk result.done result.disk }
{
    match dialect {
        Dialect::Postgresql => with_sql(alloc, dialect, Pg, path, runs, who, files, disk, clock),
        Dialect::Mysql => with_sql(alloc, dialect, My, path, runs, who, files, disk, clock),
    }
}

fn with_sql<F: Files, D: Disk, C: Clock, P: SqlText + Drop + Copy>(
    alloc: Global,
    dialect: Dialect,
    sql: P,
    path: &str,
    runs: &str,
    who: &str,
    files: &mut F,
    disk: D,
    clock: &mut C,
) -> Worked<D>
    requires sql { P.dialect ≡ dialect }
    ensures read { result.done ≡ Err status.ReadFault
        → Rose (F.faults files.old) (F.faults files.new) }
    ensures drilled { DrilledBy D.told D.faults D.crashes (F.told files.old) dialect path.now
        runs.now who.now (C.to_come clock.old) (C.to_come clock.new) disk result.done result.disk }
{
    match read_drill(alloc, files, dialect, path, runs, &sql) {
        Ok(drilling) => on_disk(alloc, disk, dialect, sql, drilling, who, clock),
        Err(status) => Worked {
            disk,
            done: Err(status),
        },
    }
}

/// What the file at the path of runs asks for, with the changelogs of its commands.
fn read_drill<F: Files, P: SqlText>(
    alloc: Global,
    files: &mut F,
    dialect: Dialect,
    path: &str,
    runs: &str,
    sql: &P,
) -> Result<Drilling, Status>
    requires same { P.dialect ≡ dialect }
    ensures finds { FindsDrill (F.told files.old)
        (λ source. drill_of source dialect path.now runs.now) result }
    ensures is { IfOk result (IsDrill dialect) }
    ensures failed { result ≡ Err status.ReadFault
        → Rose (F.faults files.old) (F.faults files.new) }
{
    match read_runs(alloc, files, runs) {
        Ok(bytes) => drill_by(alloc, files, dialect, path, bytes.as_slice(), sql),
        Err(fault) => Err(file_status(fault)),
    }
}

// The bytes of the file of a drill.
fn read_runs<F: Files>(alloc: Global, files: &mut F, runs: &str) -> Result<Items<u8>, LoadFault>
    ensures found { Finds (F.told files.old) (λ source. runs_in runs.now (source.content runs.now))
        result }
    ensures told { F.told files.new ≡ F.told files.old }
    ensures later { F.faults files.old ≤ F.faults files.new }
    ensures failed { result ≡ Err load.Read → Rose (F.faults files.old) (F.faults files.new) }
{
    match files.read(runs)? {
        Found::Bytes(bytes) => Ok(bytes),
        Found::Absent => Err(LoadFault::NoFile(Text::new(alloc, runs)?)),
        Found::TooLong => Err(LoadFault::TooLong(Text::new(alloc, runs)?)),
    }
}

fn drill_by<F: Files, P: SqlText>(
    alloc: Global,
    files: &mut F,
    dialect: Dialect,
    path: &str,
    bytes: &[u8],
    sql: &P,
) -> Result<Drilling, Status>
    requires same { P.dialect ≡ dialect }
    ensures finds { FindsDrill (F.told files.old)
        (λ source. drill_in source dialect (lines_of dialect path.now bytes.now)) result }
    ensures is { IfOk result (IsDrill dialect) }
    ensures later { F.faults files.old ≤ F.faults files.new }
    ensures failed { result ≡ Err status.ReadFault
        → Rose (F.faults files.old) (F.faults files.new) }
{
    match read_lines(alloc, dialect, path, bytes) {
        Ok(lines) => drill_with(alloc, files, dialect, lines, sql),
        Err(LinesFault::Usage) => Err(Status::Usage),
        Err(LinesFault::OutOfMemory) => Err(Status::OutOfMemory),
    }
}

fn drill_with<F: Files, P: SqlText>(
    alloc: Global,
    files: &mut F,
    dialect: Dialect,
    lines: Lines,
    sql: &P,
) -> Result<Drilling, Status>
    requires same { P.dialect ≡ dialect }
    requires few { IsInRange 1 64 (length lines.lines) }
    requires runs { All (λ line. is_run line.job ≡ true) lines.lines }
    requires short { All (λ line. HasShortTag (command_in line.job)) lines.lines }
    requires steps { All (IsInRange 1 (length lines.lines)) lines.steps }
    ensures finds { FindsDrill (F.told files.old) (λ source. drill_in source dialect (Some lines))
        result }
    ensures is { IfOk result (IsDrill dialect) }
    ensures later { F.faults files.old ≤ F.faults files.new }
    ensures failed { result ≡ Err status.ReadFault
        → Rose (F.faults files.old) (F.faults files.new) }
{
    let Lines { lines, steps } = lines;
    match entrants_of(alloc, files, dialect, lines, sql) {
        Ok(entrants) => Ok(Drilling { entrants, steps }),
        Err(fault) => Err(file_status(fault)),
    }
}

// What all lines ask for; the first fault of their files is told.
fn entrants_of<F: Files, P: SqlText>(
    alloc: Global,
    files: &mut F,
    dialect: Dialect,
    lines: Items<Line>,
    sql: &P,
) -> Result<Items<Entrant>, LoadFault>
    requires same { P.dialect ≡ dialect }
    requires runs { All (λ line. is_run line.job ≡ true) lines }
    requires short { All (λ line. HasShortTag (command_in line.job)) lines }
    ensures found { Finds (F.told files.old) (λ source. entrants_of source dialect lines) result }
    ensures each { IfOk result (All (IsEntrant dialect)) }
    ensures count { IfOk result (λ entrants. length entrants ≡ length lines) }
    ensures later { F.faults files.old ≤ F.faults files.new }
    ensures failed { result ≡ Err load.Read → Rose (F.faults files.old) (F.faults files.new) }
{
    let mut lines = lines;
    let mut entrants = Items::new(alloc);
    while !lines.is_empty() {
        let line = lines.remove(0);
        entrants.push(entrant_of(alloc, files, dialect, line, sql)?)?;
    }
    Ok(entrants)
}

fn entrant_of<F: Files, P: SqlText>(
    alloc: Global,
    files: &mut F,
    dialect: Dialect,
    line: Line,
    sql: &P,
) -> Result<Entrant, LoadFault>
    requires same { P.dialect ≡ dialect }
    requires run { is_run line.job ≡ true }
    requires short { HasShortTag (command_in line.job) }
    ensures found { Finds (F.told files.old) (λ source. entrant_of source dialect line) result }
    ensures is { IfOk result (IsEntrant dialect) }
    ensures told { F.told files.new ≡ F.told files.old }
    ensures later { F.faults files.old ≤ F.faults files.new }
    ensures failed { result ≡ Err load.Read → Rose (F.faults files.old) (F.faults files.new) }
{
    let Line {
        job,
        path: _,
        options,
        root,
        given,
    } = line;
    match changelog_of(alloc, files, &root, dialect, sql, given.as_slice()) {
        Ok(changelog) => Ok(Entrant {
            command: command_in(job),
            asked: Asked {
                changelog,
                options: options_on(dialect, options),
            },
        }),
        Err(fault) => Err(fault),
    }
}

fn command_in(job: Job) -> Command
    requires { is_run job ≡ true }
    ensures { result ≡ command_in job }
{
    match job.into_command() {
        Some(command) => command,
        None => unreachable!(),
    }
}

fn options_on(dialect: Dialect, options: Options) -> Options
    ensures { result ≡ options_on dialect options }
{
    let Options {
        dialect: _,
        contexts,
        labels,
    } = options;
    Options {
        dialect,
        contexts,
        labels,
    }
}

/// Loads the database of a disk, and takes the steps of a drill there.
fn on_disk<D: Disk, C: Clock, P: SqlText + Drop + Copy>(
    alloc: Global,
    disk: D,
    dialect: Dialect,
    sql: P,
    drilling: Drilling,
    who: &str,
    clock: &mut C,
) -> Worked<D>
    requires sql { P.dialect ≡ dialect }
    requires is { IsDrill dialect drilling }
    ensures worked { WorkedDrill D.told D.faults D.crashes dialect who.now drilling
        (C.to_come clock.old) (C.to_come clock.new) disk result.done result.disk }
{
    match Db::<D, P, Engine>::load(alloc, disk, dialect, sql, LIMIT, &Snap) {
        Ok(db) => on_database(alloc, db, dialect, sql, drilling, who, clock),
        Err(refused) => {
            let LoadRefused { disk, fault } = refused;
            Worked {
                disk,
                done: Err(load_status(fault)),
            }
        }
    }
}

fn on_database<D: Disk, C: Clock, P: SqlText + Drop + Copy, E: Executor + Drop>(
    alloc: Global,
    db: Db<D, P, E>,
    dialect: Dialect,
    sql: P,
    drilling: Drilling,
    who: &str,
    clock: &mut C,
) -> Worked<D>
    requires valid { IsDb P.dialect (D.told (disk_in db)) (D.crashes (disk_in db))
        (E.held (engine_in db)) db }
    requires ready { IsReady dialect (state (D.told (disk_in db)) (E.held (engine_in db)) db) }
    requires new { IsNew dialect most_bytes db }
    requires catalogue { IfSome (D.told (disk_in db))
        (λ bytes. catalogue_of dialect most_bytes bytes ≡ Ok (kept (E.held (engine_in db)))) }
    requires sql { P.dialect ≡ dialect }
    requires is { IsDrill dialect drilling }
    ensures worked { WorkedDrill D.told D.faults D.crashes dialect who.now drilling
        (C.to_come clock.old) (C.to_come clock.new) (disk_in db) result.done result.disk }
{
    turns_back_are_spelled();
    statements_read_back();
    let mut db = db;
    let Drilling { entrants, steps } = drilling;
    match cast_of(alloc, dialect, entrants, who, clock) {
        Ok(cast) => {
            let done = play(alloc, cast, &mut db, &sql, steps.as_slice());
            Worked {
                disk: db.into_disk(),
                done,
            }
        }
        Err(_) => Worked {
            disk: db.into_disk(),
            done: Err(Status::OutOfMemory),
        },
    }
}

// The clock is read for each command, in the order of their numbers.
fn cast_of<C: Clock>(
    alloc: Global,
    dialect: Dialect,
    entrants: Items<Entrant>,
    who: &str,
    clock: &mut C,
) -> Result<Cast, NoMemory>
    requires each { All (IsEntrant dialect) entrants }
    requires few { length entrants ≤ 64 }
    ensures begun { Begun dialect (clean who.now) entrants (C.to_come clock.old)
        (C.to_come clock.new) result }
{
    let name = clean(alloc, who)?;
    cast_named(alloc, dialect, &name, entrants, clock)
}

fn cast_named<C: Clock>(
    alloc: Global,
    dialect: Dialect,
    name: &Text,
    entrants: Items<Entrant>,
    clock: &mut C,
) -> Result<Cast, NoMemory>
    requires each { All (IsEntrant dialect) entrants }
    requires few { length entrants ≤ 64 }
    requires name { is_barred name.now ≡ false }
    ensures begun { Begun dialect name.now entrants (C.to_come clock.old) (C.to_come clock.new)
        result }
{
    let mut entrants = entrants;
    let mut cast = Cast {
        players: Vec::new(alloc),
        commands: Items::new(alloc),
    };
    while !entrants.is_empty() {
        let entrant = entrants.remove(0);
        let reading = clock.now();
        cast = joined(alloc, dialect, name, cast, entrant, reading)?;
    }
    Ok(cast)
}

// With one more command, which has the next number.
fn joined(
    alloc: Global,
    dialect: Dialect,
    name: &Text,
    cast: Cast,
    entrant: Entrant,
    reading: u64,
) -> Result<Cast, NoMemory>
    requires is { IsEntrant dialect entrant }
    requires few { length cast.players.items ≤ 63 }
    requires name { is_barred name.now ≡ false }
    ensures { IfOk result (Joins dialect name.now entrant reading cast) }
{
    let Cast { players, commands } = cast;
    let mut players = players;
    let mut commands = commands;
    let Entrant { command, asked } = entrant;
    let Asked { changelog, options } = asked;
    let number = players.len() as u64 + 1;
    let stamp = numbered_stamp(alloc, name, number, reading)?;
    commands.push(command_again(alloc, &command)?)?;
    let player = AnyCommand::new(alloc, dialect, stamp, command, changelog, options, false);
    players.push(player)?;
    Ok(Cast { players, commands })
}

// The same command.
fn command_again(alloc: Global, command: &Command) -> Result<Command, NoMemory>
    ensures { IfOk result (λ again. again ≡ command.now) }
{
    match command {
        Command::Validate => Ok(Command::Validate),
        Command::Status => Ok(Command::Status),
        Command::Update => Ok(Command::Update),
        Command::Tag(tag) => Ok(Command::Tag(tag.copy(alloc)?)),
        Command::Rollback(target) => Ok(Command::Rollback(target_again(alloc, target)?)),
        Command::Sync => Ok(Command::Sync),
        Command::Release => Ok(Command::Release),
    }
}

fn target_again(alloc: Global, target: &Target) -> Result<Target, NoMemory>
    ensures { IfOk result (λ again. again ≡ target.now) }
{
    match target {
        Target::Tag(tag) => Ok(Target::Tag(tag.copy(alloc)?)),
        Target::Count(count) => Ok(Target::Count(*count)),
        Target::Date(date) => Ok(Target::Date(*date)),
    }
}

// Takes the steps, and tells how far each command came.
fn play<S: Store, P: SqlText>(
    alloc: Global,
    cast: Cast,
    store: &mut S,
    sql: &P,
    steps: &[u32],
) -> Result<Done, Status>
    requires valid { S.valid store.old }
    requires live { IsTrue (S.state store.old).live }
    requires closed { (S.state store.old).begun ≡ None }
    requires sql { P.dialect ≡ (S.state store.old).dialect }
    requires unstarted { All (IsUnstarted P.dialect) cast.players.items }
    requires steps { All (λ n. (1 ≤ n) × (n ≤ length cast.players.items)) steps.now }
    requires commands { length cast.commands ≡ length cast.players.items }
    ensures valid { S.valid store.new }
    ensures plays { Plays cast.players.items cast.commands steps.now (S.state store.old)
        (S.state store.new) (S.crashes store.old) (S.crashes store.new) result }
    ensures later { S.faults store.old ≤ S.faults store.new }
    ensures rose { result ≡ Err status.DiskFault
        → Rose (S.faults store.old) (S.faults store.new) }
{
    let Cast { players, commands } = cast;
    let mut players = players;
    match drill_commands(&mut players, store, sql, steps) {
        Ok(()) => tell(alloc, commands, &players),
        Err(fault) => Err(drill_status(fault)),
    }
}

// How far each command came.
fn tell(alloc: Global, commands: Items<Command>, players: &[AnyCommand]) -> Result<Done, Status>
    requires { length commands ≡ length players.now }
    ensures done { IfOk result (λ done.
        (done.status ≡ status.Done)
        × (done.out ≡ Some (drill_text (drilled commands (answers_in players.now))))) }
    ensures no_memory { IfErr result (λ s. s ≡ status.OutOfMemory) }
{
    let all = drilled_of(alloc, commands, players)?;
    let text = drill_text(alloc, all.as_slice())?;
    Ok(Done::with(alloc, text))
}

fn drilled_of(
    alloc: Global,
    commands: Items<Command>,
    players: &[AnyCommand],
) -> Result<Items<Drilled>, NoMemory>
    requires { length commands ≡ length players.now }
    ensures { IfOk result (λ all. all ≡ drilled commands (answers_in players.now)) }
{
    let mut commands = commands;
    let mut all = Items::new(alloc);
    for player in players {
        let command = commands.remove(0);
        let status = code_of(player);
        all.push(Drilled { command, status })?;
    }
    Ok(all)
}

fn code_of(player: &AnyCommand) -> Option<u8>
    ensures { result ≡ option_map came_code (command_stands player.now).answer }
{
    match player.answer() {
        Some(answer) => Some(answer_code(answer)),
        None => None,
    }
}

/// The status that stands for an answer.
fn answer_code(answer: &Answer) -> u8
    ensures { result ≡ answer_code answer.now }
{
    match answer {
        Answer::Done => 0,
        Answer::Invalid(_) => 5,
        Answer::Locked(_) => 6,
        Answer::Halted { .. } => 7,
        Answer::Refused { .. } => 8,
        Answer::NoTarget => 9,
        Answer::NotReversible(_) => 10,
        Answer::Disk => 11,
        Answer::Full { .. } => 13,
        Answer::OutOfMemory => 15,
        Answer::Busy(_) => 16,
    }
}

/// The status of a drill that a fault of the store ends.
fn drill_status(fault: DrillFault) -> Status
    ensures { result ≡ drill_status fault }
{
    match fault {
        DrillFault::Disk => Status::DiskFault,
        DrillFault::Full { used, next } => Status::Full { used, next },
        DrillFault::OutOfMemory => Status::OutOfMemory,
    }
}
