use crate::notation::bytes;
use lq_base::{Dialect, NoMemory};
use lq_engine::Engine;
use lq_snap::{Snap, write};
use lq_state::State;
use lq_store::{SnapFault, States};
use std::alloc::Global;

/// As what bytes are read: as plain data, or as a sound state of a dialect, of which an engine is made.
#[derive(Clone, Copy)]
pub enum As {
    Plain,
    Sound(Dialect),
}

// Whether the bytes are no state's, or those that their state writes.
#[derive(Clone, Copy)]
enum Told {
    None,
    Same,
    Other,
}

fn plainly(alloc: Global, bytes: &[u8]) -> Result<Option<Vec<u8>>, NoMemory> {
    match State::of_bytes(alloc, bytes)? {
        None => Ok(None),
        Some(state) => Ok(Some(state.bytes(alloc)?)),
    }
}

fn soundly(alloc: Global, dialect: Dialect, bytes: &[u8]) -> Result<Option<Vec<u8>>, NoMemory> {
    match Snap.read(alloc, dialect, bytes) {
        Ok(engine) => some_written(alloc, &engine),
        Err(SnapFault::NotSnapshot) => Ok(None),
        Err(SnapFault::OutOfMemory) => Err(NoMemory),
    }
}

fn some_written(alloc: Global, engine: &Engine) -> Result<Option<Vec<u8>>, NoMemory> {
    let bytes = write(alloc, engine)?;
    Ok(Some(bytes))
}

fn written(alloc: Global, how: As, bytes: &[u8]) -> Result<Option<Vec<u8>>, NoMemory> {
    match how {
        As::Plain => plainly(alloc, bytes),
        As::Sound(dialect) => soundly(alloc, dialect, bytes),
    }
}

fn told_of(alloc: Global, how: As, bytes: &[u8]) -> Result<Told, NoMemory> {
    match written(alloc, how, bytes)? {
        None => Ok(Told::None),
        Some(written) => Ok(compared(written.as_slice(), bytes)),
    }
}

fn compared(written: &[u8], bytes: &[u8]) -> Told {
    if written == bytes {
        Told::Same
    } else {
        Told::Other
    }
}

fn said(alloc: Global, told: Told, len: usize) -> Result<String, NoMemory> {
    let said = match told {
        Told::None => String::from_str(alloc, "none")?,
        Told::Same => format!(in alloc; "same, {len} bytes")?,
        Told::Other => String::from_str(alloc, "other bytes")?,
    };
    Ok(said)
}

/// Whether the bytes are a state's, which writes them again, and how many they are.
pub fn state(alloc: Global, how: As, field: &str) -> Result<String, NoMemory> {
    let bytes = bytes(alloc, field)?;
    let told = told_of(alloc, how, bytes.as_slice())?;
    said(alloc, told, bytes.len())
}

fn of_new(alloc: Global, dialect: Dialect) -> Result<Vec<u8>, NoMemory> {
    let engine = Engine::new(alloc, dialect);
    write(alloc, &engine)
}

/// Whether a new engine writes these bytes, and how many they are.
pub fn fresh(alloc: Global, dialect: Dialect, field: &str) -> Result<String, NoMemory> {
    let bytes = bytes(alloc, field)?;
    let written = of_new(alloc, dialect)?;
    let told = compared(written.as_slice(), bytes.as_slice());
    said(alloc, told, bytes.len())
}

/// How many of the fronts of the bytes, and of the bytes with one more, are a state's.
pub fn cut(alloc: Global, how: As, field: &str) -> Result<String, NoMemory> {
    let mut bytes = bytes(alloc, field)?;
    bytes.push(0)?;
    let mut found: u64 = 0;
    for len in 0..=bytes.len() {
        if !matches!(told_of(alloc, how, &bytes[..len])?, Told::None) {
            found = found.saturating_add(1);
        }
    }
    Ok(format!(in alloc; "{found}")?)
}

// The bytes with one bit changed in the byte at a place.
fn flipped(alloc: Global, bytes: &[u8], place: usize, bit: u8) -> Result<Vec<u8>, NoMemory> {
    let mut other = Vec::new(alloc);
    for (at, byte) in bytes.iter().enumerate() {
        other.push(if at == place { *byte ^ bit } else { *byte })?;
    }
    Ok(other)
}

fn holds_at(alloc: Global, how: As, bytes: &[u8], place: usize) -> Result<bool, NoMemory> {
    for bit in [1, 2, 4, 8, 16, 32, 64, 128] {
        let other = flipped(alloc, bytes, place, bit)?;
        if matches!(told_of(alloc, how, other.as_slice())?, Told::Other) {
            return Ok(false);
        }
    }
    Ok(true)
}

/// Changes each bit in turn, and tells whether each time the bytes are no state's or are those that
/// their state writes.
pub fn changed(alloc: Global, how: As, field: &str) -> Result<String, NoMemory> {
    let bytes = bytes(alloc, field)?;
    for place in 0..bytes.len() {
        if !holds_at(alloc, how, bytes.as_slice(), place)? {
            return Ok(format!(in alloc; "other bytes at {place}")?);
        }
    }
    Ok(String::from_str(alloc, "all hold")?)
}
