use crate::opened::acted;
use lq_base::Dialect;
use std::alloc::{AllocError, Global};
use std::process::Abort;
use std::test::Fail;

// A script in which `#` stands for so many letters, what it answers with them, and with a letter less.
type Row = (&'static str, usize, &'static str, &'static str);

const POSTGRESQL: [Row; 4] = [
    // The table and its row take 68 bytes beside the 17 of an empty journal and the row's letters. What has
    // no room makes no table.
    (
        "1 text CREATE TABLE t (s TEXT)/1 text INSERT INTO t VALUES ('#')/1 take ann/1 free",
        3140,
        "ok, ok, full 3225 + 872, missing",
        "ok, ok, ok, ok",
    ),
    (
        "1 take ann/1 text CREATE TABLE t (s TEXT)/1 text INSERT INTO t VALUES ('#')/1 tag v",
        3025,
        "ok, ok, ok, full 3982 + 115",
        "ok, ok, ok, ok",
    ),
    // What frees the lock may use the last 4,096 bytes too.
    (
        "1 take ann/1 text CREATE TABLE t (s TEXT)/1 release INSERT INTO t VALUES ('#')/1 free/1 lock",
        7119,
        "ok, ok, ok, full 8076 + 117, held since 1000 by ann",
        "ok, ok, ok, ok, free",
    ),
    (
        "1 take ann/1 text CREATE TABLE t (s TEXT)/1 release INSERT INTO t VALUES ('#')/1 step ann/1 lock",
        7119,
        "ok, ok, ok, ended full 8076 + 117, held since 1000 by ann",
        "ok, ok, ok, ended done, free",
    ),
];

const MYSQL: [Row; 1] = [(
    "1 text CREATE TABLE t (s TEXT)/1 text INSERT INTO t VALUES ('#')/1 take ann/1 free",
    3170,
    "ok, ok, full 3255 + 842, missing",
    "ok, ok, ok, ok",
)];

fn spelled(alloc: Global, script: &str, letters: usize) -> Result<String, AllocError> {
    let Some((front, behind)) = script.split_once('#') else {
        return String::from_str(alloc, script);
    };
    let mut out = String::from_str(alloc, front)?;
    for _ in 0..letters {
        out.push_str("x")?;
    }
    out.push_str(behind)?;
    Ok(out)
}

fn assert_told<R: Abort>(
    rt: &R,
    alloc: Global,
    dialect: Dialect,
    script: &str,
    letters: usize,
    told: &str,
) -> Result<(), Fail> {
    let script = spelled(alloc, script, letters)?;
    let (_, is_told) = acted(alloc, dialect, 0, script.as_str())?;
    assert_eq!(rt; is_told.as_str(), told);
    Ok(())
}

fn assert_row<R: Abort>(rt: &R, alloc: Global, dialect: Dialect, row: Row) -> Result<(), Fail> {
    assert_told(rt, alloc, dialect, row.0, row.1, row.2)?;
    assert_told(rt, alloc, dialect, row.0, row.1.saturating_sub(1), row.3)
}

#[test]
fn a_lock_is_taken_and_freed_to_the_byte(rt: HostRuntime) -> Result<(), Fail> {
    for row in POSTGRESQL {
        assert_row(&rt, rt.alloc(), Dialect::Postgresql, row)?;
    }
    for row in MYSQL {
        assert_row(&rt, rt.alloc(), Dialect::Mysql, row)?;
    }
    Ok(())
}

// A call of the disk that fails, a script and what it answers.
type Broken = (u64, &'static str, &'static str);

// Loading an empty disk makes three calls, the first entry two before it, and each entry four.
const BROKEN: [Broken; 3] = [
    (6, "1 take ann/1 take ann", "disk, dead"),
    (10, "1 take ann/1 step ann/1 free", "ok, ended disk, dead"),
    (10, "1 take ann/2 free/1 step ann", "ok, disk, dead"),
];

#[test]
fn a_disk_fault_ends_a_command(rt: HostRuntime) -> Result<(), Fail> {
    for (call, script, told) in BROKEN {
        let (_, is_told) = acted(rt.alloc(), Dialect::Postgresql, call, script)?;
        assert_eq!(rt; is_told.as_str(), told, "{call}");
    }
    Ok(())
}

#[test]
fn tables_that_are_missing_are_refused(rt: HostRuntime) -> Result<(), Fail> {
    for dialect in [Dialect::Postgresql, Dialect::Mysql] {
        let (disk, told) = acted(rt.alloc(), dialect, 0, "1 tag v/1 free/1 lock")?;
        assert_eq!(rt; told.as_str(), "missing, missing, free");
        assert!(rt; disk.bytes().is_empty());
    }
    Ok(())
}
