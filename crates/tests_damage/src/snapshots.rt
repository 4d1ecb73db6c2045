ghost use Rattle.std.specs.Prelude.{◌≡◌, ◌≤◌};

use lq_base::Dialect;
use lq_db::Db;
use lq_engine::Engine;
use lq_journal::LoadFault;
use lq_model::{SqlText, StoreFault};
use lq_my::My;
use lq_outside::{Disk, LoadRefused, MemDisk};
use lq_pg::Pg;
use lq_snap::Snap;
use lq_store::{Executor, States};
use std::alloc::{AllocError, Global};
use std::process::Abort;
use std::test::Fail;
use tests_play::{acted, entries, show_fault, show_refusal};

fn show_written(alloc: Global, written: Result<u64, StoreFault>) -> Result<String, AllocError> {
    let mut out = String::new(alloc);
    match written {
        Ok(size) => write!(out, "{size}")?,
        Err(fault) => show_fault(&mut out, fault)?,
    }
    Ok(out)
}

// What a snapshot of a database that is loaded answers, and the disk afterwards.
fn written<D: Disk + Drop, P: SqlText + Drop, E: Executor + Drop, W: States<Engine = E>>(
    alloc: Global,
    disk: D,
    dialect: Dialect,
    sql: P,
    limit: u64,
    states: &W,
) -> Result<(D, String), Fail>
    requires limit_least { 8192 ≤ limit }
    requires limit_most { limit ≤ 268435456 }
    requires sql { P.dialect ≡ dialect }
{
    let loaded: Result<Db<D, P, E>, LoadRefused<D, LoadFault>> = Db::load(
        alloc, disk, dialect, sql, limit, states,
    );
    match loaded {
        Ok(mut db) => {
            let written = db.snapshot(states);
            Ok((db.into_disk(), show_written(alloc, written)?))
        }
        Err(refused) => Ok((refused.disk, show_refusal(alloc, refused.fault)?)),
    }
}

// The same of the bytes of a disk, of which this call fails.
fn snapshot(
    alloc: Global,
    disk: &MemDisk,
    dialect: Dialect,
    limit: u64,
    call: u64,
) -> Result<(MemDisk, String), Fail>
    requires limit_least { 8192 ≤ limit }
    requires limit_most { limit ≤ 268435456 }
{
    let bytes = Vec::from_slice(alloc, disk.bytes())?;
    let disk = MemDisk::new(bytes, Vec::from_slice(alloc, &[call])?);
    match dialect {
        Dialect::Postgresql => {
            written::<MemDisk, Pg, Engine, Snap>(alloc, disk, dialect, Pg, limit, &Snap)
        }
        Dialect::Mysql => {
            written::<MemDisk, My, Engine, Snap>(alloc, disk, dialect, My, limit, &Snap)
        }
    }
}

// A script, what the snapshot behind it answers, the entries that count then, and what a script
// behind it answers, here how many rows table t has.
type Row = (&'static str, &'static str, &'static str, &'static str);

// A second one is not needed, and writes nothing.
fn assert_not_needed<R: Abort>(
    rt: &R,
    alloc: Global,
    dialect: Dialect,
    disk: &MemDisk,
) -> Result<(), Fail> {
    let size = disk.bytes().len();
    let (again, told) = snapshot(alloc, disk, dialect, 8192, 0)?;
    assert_eq!(rt; told.as_str(), "0");
    assert_eq!(rt; again.bytes().len(), size);
    Ok(())
}

fn assert_row<R: Abort>(rt: &R, alloc: Global, dialect: Dialect, row: Row) -> Result<(), Fail> {
    let (script, want, then, rows) = row;
    let disk = MemDisk::new(Vec::new(alloc), Vec::new(alloc));
    let (disk, _) = acted(alloc, disk, dialect, 8192, script)?;
    let (disk, told) = snapshot(alloc, &disk, dialect, 8192, 0)?;
    assert_eq!(rt; told.as_str(), want);
    let left = entries(alloc, &disk, dialect, 8192)?;
    assert_eq!(rt; left.as_str(), then);
    assert_not_needed(rt, alloc, dialect, &disk)?;
    let (_, told) = acted(alloc, disk, dialect, 8192, "1 rows: t")?;
    assert_eq!(rt; told.as_str(), rows);
    Ok(())
}

// The state of no objects has 48 bytes, and its entry 6 more. A table of one letter with a column of
// one letter takes 135, and a row of one number 17.
const WRITTEN: [Row; 5] = [
    ("1 rows: t", "0", "", "no table"),
    ("1 begin/1 commit", "0", "", "no table"),
    (
        "1 alone: CREATE TABLE t (n INT)/1 alone: DROP TABLE t",
        "54",
        "[state of 48]",
        "no table",
    ),
    (
        "1 alone: CREATE TABLE t (n INT)",
        "189",
        "[state of 183]",
        "0 rows",
    ),
    // What is not committed is no part of it.
    (
        "1 alone: CREATE TABLE t (n INT)/1 alone: INSERT INTO t VALUES (1)/1 begin/1 user: INSERT INTO t VALUES (2)",
        "206",
        "[state of 200]",
        "1 rows",
    ),
];

#[test]
fn a_state_is_written_behind_texts(rt: HostRuntime) -> Result<(), Fail> {
    for row in WRITTEN {
        assert_row(&rt, rt.alloc(), Dialect::Postgresql, row)?;
        assert_row(&rt, rt.alloc(), Dialect::Mysql, row)?;
    }
    Ok(())
}

// Behind a state texts are written as ever, and then a state is needed again.
#[test]
fn a_second_state_is_written_behind_texts(rt: HostRuntime) -> Result<(), Fail> {
    let alloc = rt.alloc();
    let dialect = Dialect::Postgresql;
    let disk = MemDisk::new(Vec::new(alloc), Vec::new(alloc));
    let (disk, _) = acted(
        alloc,
        disk,
        dialect,
        8192,
        "1 alone: CREATE TABLE t (n INT)",
    )?;
    let (disk, _) = snapshot(alloc, &disk, dialect, 8192, 0)?;
    let (disk, told) = acted(
        alloc,
        disk,
        dialect,
        8192,
        "1 alone: INSERT INTO t VALUES (1)",
    )?;
    assert_eq!(rt; told.as_str(), "ok");
    let left = entries(alloc, &disk, dialect, 8192)?;
    assert_eq!(rt; left.as_str(), "[state of 183][INSERT INTO t VALUES (1)]");
    let (disk, told) = snapshot(alloc, &disk, dialect, 8192, 0)?;
    assert_eq!(rt; told.as_str(), "206");
    let left = entries(alloc, &disk, dialect, 8192)?;
    assert_eq!(rt; left.as_str(), "[state of 200]");
    Ok(())
}

// The table takes 33 bytes, 35 go to its row beside its letters, and 22 to its end; so 107 and the letters are in
// use. The state takes 54, and may not use the last 4,096 of 8,192 bytes.
fn full_script(alloc: Global, letters: usize) -> Result<String, AllocError> {
    let mut script = String::from_str(
        alloc,
        "1 alone: CREATE TABLE t (s TEXT)/1 alone: INSERT INTO t VALUES ('",
    )?;
    for _ in 0..letters {
        script.push_str("x")?;
    }
    script.push_str("')/1 alone: DROP TABLE t")?;
    Ok(script)
}

#[test]
fn a_state_fits_to_the_byte(rt: HostRuntime) -> Result<(), Fail> {
    let alloc = rt.alloc();
    let dialect = Dialect::Postgresql;
    for (letters, want, size) in [(3935, "54", 4096), (3936, "full 4043 + 54", 4043)] {
        let script = full_script(alloc, letters)?;
        let disk = MemDisk::new(Vec::new(alloc), Vec::new(alloc));
        let (disk, _) = acted(alloc, disk, dialect, 8192, script.as_str())?;
        let (disk, told) = snapshot(alloc, &disk, dialect, 8192, 0)?;
        assert_eq!(rt; told.as_str(), want);
        assert_eq!(rt; disk.bytes().len(), size);
    }
    Ok(())
}

// Loading makes three calls; the state and its gate are then written and synced in turn.
const STOPS: [(u64, u64, &str, &str); 4] = [
    (1, 3, "disk fault", "[CREATE TABLE t (n INT)]"),
    (4, 6, "disk", "[CREATE TABLE t (n INT)]"),
    (7, 7, "disk", "[state of 183]"),
    (8, 8, "189", "[state of 183]"),
];

#[test]
fn a_failing_call_leaves_the_state_or_not(rt: HostRuntime) -> Result<(), Fail> {
    let alloc = rt.alloc();
    let dialect = Dialect::Postgresql;
    let disk = MemDisk::new(Vec::new(alloc), Vec::new(alloc));
    let (disk, _) = acted(
        alloc,
        disk,
        dialect,
        8192,
        "1 alone: CREATE TABLE t (n INT)",
    )?;
    for (first, last, want, then) in STOPS {
        for call in first..=last {
            let (left, told) = snapshot(alloc, &disk, dialect, 8192, call)?;
            assert_eq!(rt; told.as_str(), want, "{call}");
            let left = entries(alloc, &left, dialect, 8192)?;
            assert_eq!(rt; left.as_str(), then, "{call}");
        }
    }
    Ok(())
}
