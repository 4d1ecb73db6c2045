ghost use Rattle.std.specs.List.{All};
ghost use Rattle.std.specs.Prelude.{◌≡◌, ◌≤◌, IfErr, IfOk, IfSome, IsTrue, List, OnOk, Some, [], ◌∷◌, false, if◌then◌else◌, is_some, length, take, true, ℕ};
ghost use Rattle.hex.specs.Hex.{encode_lower};
ghost use Rattle.md5.specs.Md5.{md5};
ghost use Rattle.lq_base.specs.Number.{char_count};
ghost use Rattle.lq_changelog.specs.Gathers.{HasShortTexts};
ghost use Rattle.lq_commands.specs.Jobs.{is_diskless};
ghost use Rattle.lq_commands.specs.Stamp.{ReadOnce, stamp_of};
ghost use Rattle.lq_commands.specs.Scripts.{script, tag_in};
ghost use Rattle.lq_commands.specs.Works.{IsReady, OnIts};
ghost use Rattle.lq_db.specs.Db.{IsDb, IsNew, disk_in, engine_in, state};
ghost use Rattle.lq_kinds.specs.ReadFor.{AreFor};
ghost use Rattle.lq_model.specs.Catalogue.{table_of};
ghost use Rattle.lq_outside.specs.Forms.{held_in};
ghost use Rattle.lq_run.specs.Commands.{HasDatabase, Leaves};
ghost use Rattle.lq_tell.specs.SoakLog.{soak_changelog, soak_path, table_name};
ghost use Rattle.lq_jobs.specs.Bytes.{most_bytes};
ghost use Rattle.lq_jobs.specs.Kinds.{Refuses};
ghost use Rattle.lq_soak.specs.Soaked.{Did, DidOnEach, Ended, EndsOn, EndsOnEach, FailsSoak, IsLeft, IsMade, IsMeasured, LacksOr, Soaks, TakenBack, TellsSoak, is_done, soak_given, tables_there, take_back};
ghost use Rattle.lq_track.specs.Database.{Database, rows_of};
ghost use Rattle.lq_base.specs.declared.tracking.Tracked.{Tracked};
ghost use Rattle.lq_turns.specs.Stops.{is_mark};

use lq_base::{Command, Dialect, Items, Name, NoMemory, Target, Text};
use lq_changelog::load;
use lq_commands::{Given, SESSION, run_command, stamp_of};
use lq_db::Db;
use lq_engine::Engine;
use lq_expr::Options;
use lq_jobs::{LIMIT, copy_status};
use lq_journal::Journal;
use lq_kinds::Changelog;
use lq_model::{Look, SqlText};
use lq_outside::{Clock, Disk, Files, SureDisk, SureFiles};
use lq_report::{Soaked, soak_text};
use lq_shared::Shared;
use lq_snap::Snap;
use lq_store::{Executor, Store};
use lq_tell::{Done, SOAK_PATH, Status, soak_changelog, table_name};
use lq_track::read_rows;
use md5::{Digest, Md5};
use std::alloc::Global;

/// The number from which a changelog is made, and how many changesets it has.
#[derive(Clone, Copy)]
pub struct Seed {
    pub number: u64,
    pub sets: u64,
}

/// What is soaked, who does it, and when.
#[derive(Clone, Copy)]
struct Soaker<'a> {
    dialect: Dialect,
    seed: Seed,
    who: &'a str,
    reading: u64,
}

/// Runs a changelog that is made from a number on an empty database in memory, takes it back, and
/// tells what was there after each. A command that is not done gives its status.
pub fn soak<C: Clock, P: SqlText + Drop + Copy>(
    alloc: Global,
    sql: P,
    dialect: Dialect,
    seed: Seed,
    who: &str,
    clock: &mut C,
) -> Result<Done, Status>
    requires sql { P.dialect ≡ dialect }
    ensures refuses { Refuses is_diskless result }
    ensures tells { TellsSoak dialect seed.number seed.sets (stamp_of who.now (C.last clock.new))
        result }
    ensures once { ReadOnce (C.to_come clock.old) (C.to_come clock.new) (C.last clock.new) }
{
    let reading = clock.now();
    let soaker = Soaker {
        dialect,
        seed,
        who,
        reading,
    };
    let text = there_and_back(alloc, sql, soaker)?;
    Ok(Done::with(alloc, text))
}

// Updates, measures the journal, and goes on with the rollback.
fn there_and_back<P: SqlText + Drop + Copy>(
    alloc: Global,
    sql: P,
    soaker: Soaker<'_>,
) -> Result<Text, Status>
    requires { P.dialect ≡ soaker.dialect }
    ensures stops { IfErr result (λ s. is_diskless s ≡ true) }
    ensures undone { IfErr result (λ s. is_done s ≡ false) }
    ensures ends { IfErr result
        (FailsSoak soaker.entry.dialect soaker.entry.seed.number soaker.entry.seed.sets
        (stamp_of soaker.entry.who.now soaker.entry.reading)) }
    ensures soaks { IfOk result (λ text.
        Soaks soaker.entry.dialect soaker.entry.seed.number soaker.entry.seed.sets
        (stamp_of soaker.entry.who.now soaker.entry.reading) text) }
{
    let empty = SureDisk::new(Vec::new(alloc));
    let update = Command::Update;
    let after = disk_after(alloc, sql, soaker, &update, empty)?;
    let After { disk, .. } = after;
    let there = measure(alloc, soaker.dialect, disk)?;
    let sum = sum_of(alloc, there.disk.bytes(), there.used)?;
    back_text(alloc, sql, soaker, there, sum)
}

// Takes the changelog back whose update was measured, and makes the text of both.
fn back_text<P: SqlText + Drop + Copy>(
    alloc: Global,
    sql: P,
    soaker: Soaker<'_>,
    there: Measured,
    sum: Text,
) -> Result<Text, Status>
    requires { P.dialect ≡ soaker.dialect }
    ensures stops { IfErr result (λ s. is_diskless s ≡ true) }
    ensures undone { IfErr result (λ s. is_done s ≡ false) }
    ensures ends { IfErr result (λ s.
        LacksOr s
        (Ended soaker.entry.dialect soaker.entry.seed.number soaker.entry.seed.sets
        (stamp_of soaker.entry.who.now soaker.entry.reading) (take_back soaker.entry.seed.sets)
        (⟦<SureDisk as Disk>⟧.told there.disk) s)) }
    ensures back { IfOk result (λ text.
        TakenBack soaker.entry.dialect soaker.entry.seed.number soaker.entry.seed.sets
        (stamp_of soaker.entry.who.now soaker.entry.reading)
        (⟦<SureDisk as Disk>⟧.told there.disk)
        there.entries there.used sum text) }
{
    let Measured {
        entries,
        used,
        disk,
    } = there;
    let sets = soaker.seed.sets;
    let rollback = take_back(sets);
    let after = disk_after(alloc, sql, soaker, &rollback, disk)?;
    let After { disk, left } = after;
    let back = measure(alloc, soaker.dialect, disk)?;
    let told = Soaked {
        sets,
        entries,
        bytes: used,
        sum,
        later: back.entries,
        rows: left.rows,
        tables: left.tables,
    };
    let text = soak_text(alloc, &told)?;
    Ok(text)
}

// The command that takes so many changesets back.
fn take_back(sets: u64) -> Command
    ensures { result ≡ take_back sets }
{
    Command::Rollback(Target::Count(sets.min(u32::MAX as u64) as u32))
}

/// A disk on which a command was done, and what its database then has of the changelog.
#[derive(Drop)]
struct After<D: Disk> {
    disk: D,
    left: Left,
}

/// What a database has of the changelog.
#[derive(Clone, Copy)]
struct Left {
    /// The rows of tracking.
    rows: u64,
    /// The tables that a changeset makes.
    tables: u64,
}

// The disk after the command, where it is done. A database in memory that cannot be loaded again
// lacks memory.
fn disk_after<P: SqlText + Drop + Copy>(
    alloc: Global,
    sql: P,
    soaker: Soaker<'_>,
    command: &Command,
    disk: SureDisk,
) -> Result<After<SureDisk>, Status>
    requires sql { P.dialect ≡ soaker.dialect }
    requires tag { IfSome (tag_in command.now) (λ tag. char_count tag ≤ 255) }
    ensures stops { IfErr result (λ s. is_diskless s ≡ true) }
    ensures undone { IfErr result (λ s. is_done s ≡ false) }
    ensures ends { IfErr result (λ s.
        LacksOr s
        (Ended soaker.entry.dialect soaker.entry.seed.number soaker.entry.seed.sets
        (stamp_of soaker.entry.who.now soaker.entry.reading) command.now
        (⟦<SureDisk as Disk>⟧.told disk) s)) }
    ensures did { IfOk result (λ after.
        Did soaker.entry.dialect soaker.entry.seed.number soaker.entry.seed.sets
        (stamp_of soaker.entry.who.now soaker.entry.reading) command.now
        (⟦<SureDisk as Disk>⟧.told disk) (⟦<SureDisk as Disk>⟧.told after.disk)
        after.left.rows
        after.left.tables) }
{
    let given = given_by(alloc, &sql, soaker)?;
    match Db::<SureDisk, P, Engine>::load(alloc, disk, given.options.dialect, sql, LIMIT, &Snap) {
        Ok(db) => on_loaded(alloc, db, sql, command, given, soaker.seed.sets),
        Err(_) => Err(Status::OutOfMemory),
    }
}

fn on_loaded<D: Disk + Drop, P: SqlText + Drop + Copy, E: Executor + Drop>(
    alloc: Global,
    db: Db<D, P, E>,
    sql: P,
    command: &Command,
    given: Given,
    sets: u64,
) -> Result<After<D>, Status>
    requires valid { IsDb P.dialect (D.told (disk_in db)) (D.crashes (disk_in db))
        (E.held (engine_in db)) db }
    requires ready { IsReady given.options.dialect
        (state (D.told (disk_in db)) (E.held (engine_in db)) db) }
    requires new { IsNew given.options.dialect most_bytes db }
    requires sql { P.dialect ≡ given.options.dialect }
    requires read { AreFor given.options.dialect given.changelog }
    requires short { All HasShortTexts given.changelog.sets }
    requires tag { IfSome (tag_in command.now) (λ tag. char_count tag ≤ 255) }
    requires moment { given.stamp.reading ≤ 253402300799999 }
    requires name { is_mark given.stamp.who ≡ false }
    ensures stops { IfErr result (λ s. is_diskless s ≡ true) }
    ensures undone { IfErr result (λ s. is_done s ≡ false) }
    ensures ends { IfErr result
        (λ s. LacksOr s (EndsOnEach given command.now (D.told (disk_in db)) s)) }
    ensures did { IfOk result (λ after.
        DidOnEach given command.now sets (D.told (disk_in db)) (D.told after.disk) after.left.rows
        after.left.tables) }
{
    let mut db = db;
    let dialect = given.options.dialect;
    done_on(alloc, command, given, &mut db, &sql)?;
    let left = left_on(alloc, dialect, sets, &db)?;
    Ok(After {
        disk: db.into_disk(),
        left,
    })
}

// Does the command.
fn done_on<S: Store, P: SqlText>(
    alloc: Global,
    command: &Command,
    given: Given,
    store: &mut S,
    sql: &P,
) -> Result<(), Status>
    requires valid { S.valid store.old }
    requires ready { IsReady given.options.dialect (S.state store.old) }
    requires sql { P.dialect ≡ given.options.dialect }
    requires read { AreFor given.options.dialect given.changelog }
    requires short { All HasShortTexts given.changelog.sets }
    requires tag { IfSome (tag_in command.now) (λ tag. char_count tag ≤ 255) }
    requires moment { given.stamp.reading ≤ 253402300799999 }
    requires name { is_mark given.stamp.who ≡ false }
    ensures valid { S.valid store.new }
    ensures leaves { OnOk result
        (OnIts given.options.dialect (S.state store.old) (λ database.
        Leaves given.options.dialect (script command.now given database) database
        (S.state store.old) (S.state store.new))) }
    ensures live { OnOk result (IsTrue (S.state store.new).live) }
    ensures ends { IfErr result (λ s.
        LacksOr s
        (OnIts given.options.dialect (S.state store.old)
        (λ database. EndsOn command.now given database s))) }
    ensures stops { IfErr result (λ s. is_diskless s ≡ true) }
    ensures undone { IfErr result (λ s. is_done s ≡ false) }
{
    match run_command(alloc, command, given, store, sql) {
        Ok(done) => unless_done(done),
        Err(status) => Err(copy_status(status)),
    }
}

fn unless_done(done: Done) -> Result<(), Status>
    ensures ok { OnOk result (done.status ≡ Status.Done) }
    ensures stops { IfErr result (λ s. s ≡ done.status) }
    ensures undone { IfErr result (λ s. is_done s ≡ false) }
{
    let Done { status, .. } = done;
    match status {
        Status::Done => Ok(()),
        stopped => Err(stopped),
    }
}

fn given_by<P: SqlText>(alloc: Global, sql: &P, soaker: Soaker<'_>) -> Result<Given, NoMemory>
    requires { P.dialect ≡ soaker.dialect }
    ensures sql { IfOk result (λ given. P.dialect ≡ given.options.dialect) }
    ensures read { IfOk result (λ given. AreFor given.options.dialect given.changelog) }
    ensures short { IfOk result (λ given. All HasShortTexts given.changelog.sets) }
    ensures moment { IfOk result (λ given. given.stamp.reading ≤ 253402300799999) }
    ensures name { IfOk result (λ given. is_mark given.stamp.who ≡ false) }
    ensures given { IfOk result (λ given.
        given
        ≡ soak_given soaker.entry.dialect given.changelog
        (stamp_of soaker.entry.who.now soaker.entry.reading)) }
    ensures made { IfOk result (λ given.
        IsMade soaker.entry.dialect soaker.entry.seed.number soaker.entry.seed.sets
        given.changelog) }
{
    let stamp = stamp_of(alloc, soaker.who, soaker.reading)?;
    let changelog = shared_changelog(alloc, sql, soaker.dialect, soaker.seed)?;
    let options = Options {
        dialect: soaker.dialect,
        contexts: Items::new(alloc),
        labels: None,
    };
    Ok(Given {
        changelog,
        options,
        stamp,
    })
}

fn shared_changelog<P: SqlText>(
    alloc: Global,
    sql: &P,
    dialect: Dialect,
    seed: Seed,
) -> Result<Shared<Changelog>, NoMemory>
    requires { P.dialect ≡ dialect }
    ensures read { IfOk result (λ g. AreFor dialect g) }
    ensures short { IfOk result (λ g. All HasShortTexts g.sets) }
    ensures made { IfOk result (λ g. IsMade dialect seed.number seed.sets g) }
{
    let changelog = made_changelog(alloc, sql, dialect, seed)?;
    let shared = Shared::new(alloc, changelog)?;
    Ok(shared)
}

// The changelog that is made from the seed: all of it is valid, so what is missing is memory.
fn made_changelog<P: SqlText>(
    alloc: Global,
    sql: &P,
    dialect: Dialect,
    seed: Seed,
) -> Result<Changelog, NoMemory>
    requires { P.dialect ≡ dialect }
    ensures read { IfOk result (λ g. AreFor dialect g) }
    ensures short { IfOk result (λ g. All HasShortTexts g.sets) }
    ensures made { IfOk result (λ g. IsMade dialect seed.number seed.sets g) }
{
    let mut files = made_files(alloc, seed)?;
    match load(alloc, &mut files, SOAK_PATH, dialect, sql, &[]) {
        Ok(changelog) => Ok(changelog),
        Err(_) => Err(NoMemory),
    }
}

fn made_files(alloc: Global, seed: Seed) -> Result<SureFiles, NoMemory>
    ensures { IfOk result (λ files.
        ⟦<SureFiles as Files>⟧.told files
        ≡ Some (held_in ((soak_path, soak_changelog seed.number seed.sets) ∷ []))) }
{
    let text = soak_changelog(alloc, seed.number, seed.sets)?;
    let bytes = Items::from_slice(alloc, text.as_str().as_bytes())?;
    let path = Text::new(alloc, SOAK_PATH)?;
    let mut files = Items::new(alloc);
    files.push((path, bytes))?;
    Ok(SureFiles::new(alloc, files))
}

/// What the journal of a disk holds.
#[derive(Drop)]
struct Measured {
    entries: u64,
    /// How many of its bytes are used.
    used: u64,
    disk: SureDisk,
}

fn measure(alloc: Global, dialect: Dialect, disk: SureDisk) -> Result<Measured, NoMemory>
    ensures told { IfOk result
        (λ there. ⟦<SureDisk as Disk>⟧.told there.disk
        ≡ ⟦<SureDisk as Disk>⟧.told disk) }
    ensures measured { IfOk result
        (λ there. IsMeasured dialect (⟦<SureDisk as Disk>⟧.told disk) there.entries
        there.used) }
{
    match Journal::load(alloc, disk, dialect, LIMIT) {
        Ok((journal, entries)) => Ok(Measured {
            entries: entries.len() as u64,
            used: journal.used(),
            disk: journal.into_disk(),
        }),
        Err(_) => Err(NoMemory),
    }
}

// The MD5 of the bytes that are used, in hexadecimal digits.
#[tactic(auto, using(std::proofs::lemmas::List::take_min))]
fn sum_of(alloc: Global, bytes: &[u8], used: u64) -> Result<Text, NoMemory>
    ensures { IfOk result (λ sum. sum ≡ encode_lower (md5 (take used bytes.now))) }
{
    let len = (used as usize).min(bytes.len());
    let digest = <Md5 as Digest>::digest(&bytes[..len]);
    let digits = hex::encode(alloc, digest.as_slice())?;
    Text::new(alloc, digits.as_str())
}

// Counts what is left.
fn left_on<S: Store>(
    alloc: Global,
    dialect: Dialect,
    sets: u64,
    store: &S,
) -> Result<Left, NoMemory>
    requires valid { S.valid store.now }
    requires live { IsTrue (S.state store.now).live }
    ensures { IfOk result (λ left.
        (database : Database)
        → HasDatabase dialect (S.state store.now) database
        → IsLeft sets database left.rows left.tables) }
{
    match store.look(SESSION) {
        Ok(view) => counted(alloc, dialect, sets, view),
        Err(_) => Err(NoMemory),
    }
}

fn counted<K: Look>(alloc: Global, dialect: Dialect, sets: u64, look: &K) -> Result<Left, NoMemory>
    ensures rows { IfOk result (λ left.
        (rows : List Tracked)
        → rows_of (K.catalogue look.now) ≡ Some rows
        → left.rows ≡ length rows) }
    ensures tables { IfOk result (λ left. left.tables
        ≡ tables_there (K.catalogue look.now) sets) }
{
    let Ok(rows) = read_rows(alloc, dialect, look) else {
        return Err(NoMemory);
    };
    let tables = tables_in(alloc, sets, look)?;
    Ok(Left {
        rows: rows.len() as u64,
        tables,
    })
}

fn tables_in<K: Look>(alloc: Global, sets: u64, look: &K) -> Result<u64, NoMemory>
    ensures { IfOk result (λ count. count ≡ tables_there (K.catalogue look.now) sets) }
{
    let mut count = 0;
    for place in 0..sets {
        count += one_if(is_there(alloc, place + 1, look)?);
    }
    Ok(count)
}

fn one_if(is: bool) -> u64
    ensures one { result ≡ (if is then 1 else 0) }
    ensures most { result ≤ 1 }
{
    if is { 1 } else { 0 }
}

fn is_there<K: Look>(alloc: Global, place: u64, look: &K) -> Result<bool, NoMemory>
    ensures { IfOk result
        (λ is. is ≡ is_some (table_of (K.catalogue look.now) (table_name place))) }
{
    let text = table_name(alloc, place)?;
    match Name::new(alloc, text.as_str()) {
        Ok(name) => Ok(look.is_table(&name)),
        Err(_) => Err(NoMemory),
    }
}
