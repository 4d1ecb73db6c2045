ghost use Rattle.std.specs.Prelude.{◌≡◌, ◌≤◌};

use crate::script::play;
use lq_base::{Dialect, Items, Text};
use lq_db::Db;
use lq_engine::Engine;
use lq_frames::{Body, Entry};
use lq_journal::{Journal, LoadFault};
use lq_model::SqlText;
use lq_my::My;
use lq_outside::{Disk, LoadRefused, MemDisk};
use lq_pg::Pg;
use lq_snap::Snap;
use lq_store::{Executor, States};
use std::alloc::{AllocError, Global};
use std::test::Fail;

/// Why a database was not loaded.
pub fn show_refusal(alloc: Global, fault: LoadFault) -> Result<String, AllocError> {
    Ok(match fault {
        LoadFault::Disk => format!(in alloc; "disk fault")?,
        LoadFault::Damaged { at } => format!(in alloc; "damaged at {at}")?,
        LoadFault::OutOfMemory => format!(in alloc; "out of memory")?,
    })
}

// The answers to a script, and the disk afterwards.
fn answers<D: Disk + Drop, P: SqlText + Drop, E: Executor + Drop, W: States<Engine = E>>(
    alloc: Global,
    disk: D,
    dialect: Dialect,
    sql: P,
    limit: u64,
    states: &W,
    script: &str,
) -> Result<(D, String), Fail>
    requires limit_least { 8192 ≤ limit }
    requires limit_most { limit ≤ 268435456 }
    requires sql { P.dialect ≡ dialect }
{
    let loaded: Result<Db<D, P, E>, LoadRefused<D, LoadFault>> = Db::load(
        alloc, disk, dialect, sql, limit, states,
    );
    match loaded {
        Ok(mut db) => {
            let told = play(alloc, &mut db, script)?;
            Ok((db.into_disk(), told))
        }
        Err(refused) => Ok((refused.disk, show_refusal(alloc, refused.fault)?)),
    }
}

fn show_entries(alloc: Global, entries: &[Entry]) -> Result<String, AllocError> {
    let mut out = String::new(alloc);
    for entry in entries {
        out.push_str("[")?;
        show_entry(&mut out, entry)?;
        out.push_str("]")?;
    }
    Ok(out)
}

fn show_entry(out: &mut String, entry: &Entry) -> Result<(), AllocError> {
    match &entry.body {
        Body::Texts(texts) => show_texts(out, texts.as_slice()),
        Body::State(bytes) => {
            let size = bytes.len();
            write!(out, "state of {size}")
        }
    }
}

fn show_texts(out: &mut String, texts: &[Text]) -> Result<(), AllocError> {
    let mut between = "";
    for text in texts {
        out.push_str(between)?;
        out.push_str(text.as_str())?;
        between = ";";
    }
    Ok(())
}

// The journal that is on a disk.
fn journal<D: Disk + Drop>(
    alloc: Global,
    disk: D,
    dialect: Dialect,
    limit: u64,
) -> Result<String, Fail>
    requires limit_least { 8192 ≤ limit }
    requires limit_most { limit ≤ 268435456 }
{
    let loaded: Result<(Journal<D>, Items<Entry>), LoadRefused<D, LoadFault>> = Journal::load(
        alloc, disk, dialect, limit,
    );
    match loaded {
        Ok((_, entries)) => Ok(show_entries(alloc, entries.as_slice())?),
        Err(refused) => Ok(show_refusal(alloc, refused.fault)?),
    }
}

/// What a script on a disk answers.
pub fn acted(
    alloc: Global,
    disk: MemDisk,
    dialect: Dialect,
    limit: u64,
    script: &str,
) -> Result<(MemDisk, String), Fail>
    requires limit_least { 8192 ≤ limit }
    requires limit_most { limit ≤ 268435456 }
{
    match dialect {
        Dialect::Postgresql => {
            answers::<MemDisk, Pg, Engine, Snap>(alloc, disk, dialect, Pg, limit, &Snap, script)
        },
        Dialect::Mysql => {
            answers::<MemDisk, My, Engine, Snap>(alloc, disk, dialect, My, limit, &Snap, script)
        },
    }
}

/// The entries that are on a disk, from the last state on.
pub fn entries(alloc: Global, disk: &MemDisk, dialect: Dialect, limit: u64) -> Result<String, Fail>
    requires limit_least { 8192 ≤ limit }
    requires limit_most { limit ≤ 268435456 }
{
    let bytes = Vec::from_slice(alloc, disk.bytes())?;
    journal(alloc, MemDisk::new(bytes, Vec::new(alloc)), dialect, limit)
}
