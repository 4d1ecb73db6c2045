ghost use Rattle.std.specs.Prelude.{◌≡◌, drop, false, IfOk, MatchOption, MatchResult, Ok, Some};
ghost use Rattle.lq_codec.specs.State.{state_of};
ghost use Rattle.lq_loading.specs.Raise.{BeginsWith, Folds, IsAt, IsCleanLock, IsRaised, MayNotRaise, MayNotRead, Ran};
ghost use Rattle.lq_entries.specs.Load.{folded};
ghost use Rattle.lq_frames.specs.Body.{has_state};
ghost use Rattle.lq_model.specs.Catalogue.{no_objects};
ghost use Rattle.lq_store.specs.Journal.{run_text, run_texts};
ghost use Rattle.lq_track.specs.Database.{lock_of, rows_of};

use crate::twins::has_twin_rows;
use laws_codec::laws::states_are_sound;
use lq_base::{Dialect, Items, Lock, NoMemory, Text, Tracked};
use lq_frames::{Body, Entry};
use lq_journal::LoadFault;
use lq_model::{By, ParseFault, SqlText};
use lq_store::{Executor, RunFault, SnapFault, States};
use lq_track::{TrackFault, read_lock, read_rows};
use std::alloc::Global;

// Runs a text as the program's: false where it is no statement, or is refused.
fn run_text<P: SqlText, E: Executor>(
    alloc: Global,
    sql: &P,
    engine: &mut E,
    text: &str,
) -> Result<bool, NoMemory>
    requires { IsAt P.dialect (E.held engine.old).now (E.held engine.old) }
    ensures { Ran P.dialect (run_text P.dialect text.now (E.held engine.old).now) result
        (E.held engine.new) }
{
    match sql.parse(alloc, text) {
        Ok(statement) => match engine.run(By::Program, &statement) {
            Ok(_) => Ok(true),
            Err(RunFault::Refused(_)) => Ok(false),
            Err(RunFault::OutOfMemory) => Err(NoMemory),
        },
        Err(ParseFault::NotSql) => Ok(false),
        Err(ParseFault::OutOfMemory) => Err(NoMemory),
    }
}

// Runs the texts of an entry.
fn run_texts<P: SqlText, E: Executor>(
    alloc: Global,
    sql: &P,
    engine: &mut E,
    texts: &[Text],
) -> Result<bool, NoMemory>
    requires { IsAt P.dialect (E.held engine.old).now (E.held engine.old) }
    ensures { Ran P.dialect (run_texts P.dialect texts.now (E.held engine.old).now) result
        (E.held engine.new) }
{
    for text in texts {
        if !run_text(alloc, sql, engine, text.as_str())? {
            return Ok(false);
        }
    }
    Ok(true)
}

// Runs entries of texts.
fn run_entries<P: SqlText, E: Executor>(
    alloc: Global,
    sql: &P,
    engine: &mut E,
    entries: &[Entry],
) -> Result<(), LoadFault>
    requires at { IsAt P.dialect (E.held engine.old).now (E.held engine.old) }
    requires texts { has_state entries.now ≡ false }
    ensures { Folds P.dialect (folded P.dialect entries.now (Ok (E.held engine.old).now)) result
        (E.held engine.new) }
{
    for entry in entries {
        match &entry.body {
            Body::State(_) => unreachable!(),
            Body::Texts(texts) => match run_texts(alloc, sql, engine, texts.as_slice()) {
                Ok(true) => engine.forget(),
                Ok(false) => return Err(LoadFault::Damaged { at: entry.at }),
                Err(NoMemory) => return Err(LoadFault::OutOfMemory),
            },
        }
    }
    Ok(())
}

// The rows that the catalogue has, where they can be read.
fn rows_now<E: Executor>(
    alloc: Global,
    dialect: Dialect,
    engine: &E,
) -> Result<Option<Items<Tracked>>, NoMemory>
    ensures { IfOk result (λ rows. rows ≡ rows_of (E.held engine.now).now) }
{
    match read_rows(alloc, dialect, engine) {
        Ok(rows) => Ok(Some(rows)),
        Err(TrackFault::NotTables) => Ok(None),
        Err(TrackFault::OutOfMemory) => Err(NoMemory),
    }
}

// The lock that it has, where it can be read.
fn lock_there<E: Executor>(
    alloc: Global,
    dialect: Dialect,
    engine: &E,
) -> Result<Option<Lock>, NoMemory>
    ensures { IfOk result (λ lock. lock ≡ lock_of dialect (E.held engine.now).now) }
{
    match read_lock(alloc, dialect, engine) {
        Ok(lock) => Ok(Some(lock)),
        Err(TrackFault::NotTables) => Ok(None),
        Err(TrackFault::OutOfMemory) => Err(NoMemory),
    }
}

// The lock, where the tracking tables are as they are made, their rows can be read and differ, and
// nothing else has or names their names.
#[tactic(auto, using(crate::proofs::Raises::clean_by, crate::proofs::Raises::twins_not_clean, crate::proofs::Raises::rowless_not_clean, crate::proofs::Raises::mixed_not_clean))]
fn clean_lock<E: Executor>(
    alloc: Global,
    dialect: Dialect,
    engine: &E,
) -> Result<Option<Lock>, NoMemory>
    requires { (E.held engine.now).dialect ≡ dialect }
    ensures { IfOk result (λ lock. IsCleanLock dialect (E.held engine.now).now lock) }
{
    if !engine.is_apart() {
        return Ok(None);
    }
    let Some(rows) = rows_now(alloc, dialect, engine)? else {
        return Ok(None);
    };
    if has_twin_rows(alloc, rows.as_slice())? {
        return Ok(None);
    }
    let lock = lock_there(alloc, dialect, engine)?;
    Ok(lock)
}

/// What a journal stands for.
#[derive(Drop)]
pub struct Raised<E: Executor + Drop> {
    pub engine: E,
    pub lock: Lock,
}

// Runs entries of texts on what an engine holds, and looks whether the tracking tables are as they
// are made.
#[tactic(auto, using(crate::proofs::Raises::raises, crate::proofs::Raises::not_raised, crate::proofs::Raises::not_clean))]
fn raise_from<P: SqlText, E: Executor + Drop>(
    alloc: Global,
    dialect: Dialect,
    sql: &P,
    engine: E,
    entries: &[Entry],
    used: u64,
) -> Result<Raised<E>, LoadFault>
    requires dialect { P.dialect ≡ dialect }
    requires at { IsAt P.dialect (E.held engine).now (E.held engine) }
    requires texts { has_state entries.now ≡ false }
    ensures { MatchResult result
        (λ raised. IsRaised P.dialect (folded P.dialect entries.now (Ok (E.held engine).now))
        (E.held raised.engine) raised.lock)
        (λ fault. MayNotRaise P.dialect used
        (folded P.dialect entries.now (Ok (E.held engine).now)) fault) }
{
    let mut engine = engine;
    match run_entries(alloc, sql, &mut engine, entries) {
        Ok(()) => engine.forget(),
        Err(fault) => return Err(fault),
    }
    match clean_lock(alloc, dialect, &engine)? {
        Some(lock) => Ok(Raised { engine, lock }),
        None => Err(LoadFault::Damaged { at: used }),
    }
}

// The state with which entries begin, with its place, and the entries behind it.
fn first_state(entries: &[Entry]) -> Option<(u64, &[u8], &[Entry])>
    requires { has_state (drop 1 entries.now) ≡ false }
    ensures { MatchOption result (has_state entries.now ≡ false)
        (λ first. BeginsWith entries.now first.0 first.1.now first.2.now) }
{
    let Some((entry, behind)) = entries.split_first() else {
        return None;
    };
    match &entry.body {
        Body::State(bytes) => Some((entry.at, bytes.as_slice(), behind)),
        Body::Texts(_) => None,
    }
}

// The engine of a state that stands at a place.
fn read_state<E: Executor + Drop, W: States<Engine = E>>(
    alloc: Global,
    dialect: Dialect,
    states: &W,
    at: u64,
    bytes: &[u8],
) -> Result<E, LoadFault>
    ensures { MatchResult result
        (λ engine. (state_of dialect bytes.now ≡ Some (E.held engine).now)
        × IsAt dialect (E.held engine).now (E.held engine))
        (λ fault. MayNotRead at (state_of dialect bytes.now) fault) }
{
    states_are_sound();
    match states.read(alloc, dialect, bytes) {
        Ok(engine) => Ok(engine),
        Err(SnapFault::NotSnapshot) => Err(LoadFault::Damaged { at }),
        Err(SnapFault::OutOfMemory) => Err(LoadFault::OutOfMemory),
    }
}

/// Reads the state with which the entries of a journal begin, where they do, runs those behind it, and
/// looks whether the tracking tables are as they are made.
pub fn raise<P: SqlText, E: Executor + Drop, W: States<Engine = E>>(
    alloc: Global,
    dialect: Dialect,
    sql: &P,
    states: &W,
    entries: &[Entry],
    used: u64,
) -> Result<Raised<E>, LoadFault>
    requires dialect { P.dialect ≡ dialect }
    requires states { has_state (drop 1 entries.now) ≡ false }
    ensures { MatchResult result
        (λ raised. IsRaised P.dialect (folded P.dialect entries.now (Ok no_objects))
        (E.held raised.engine) raised.lock)
        (λ fault. MayNotRaise P.dialect used (folded P.dialect entries.now (Ok no_objects))
        fault) }
{
    let Some((at, bytes, behind)) = first_state(entries) else {
        return raise_from(alloc, dialect, sql, E::new(alloc, dialect), entries, used);
    };
    match read_state(alloc, dialect, states, at, bytes) {
        Ok(engine) => raise_from(alloc, dialect, sql, engine, behind, used),
        Err(fault) => Err(fault),
    }
}
