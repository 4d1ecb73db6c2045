use lq_base::Dialect;
use lq_outside::MemDisk;
use std::alloc::Global;
use std::process::Abort;
use std::test::Fail;
use tests_play::{acted, entries};

// The first and the last number of a call of the disk that fails, what the script answers then, and
// the entries that are on the disk afterwards.
type Row = (u64, u64, &'static str, &'static str);

// One call of the disk fails.
fn assert_left<R: Abort>(
    rt: &R,
    alloc: Global,
    dialect: Dialect,
    script: &str,
    call: u64,
    row: Row,
) -> Result<(), Fail> {
    let fail = Vec::from_slice(alloc, &[call])?;
    let disk = MemDisk::new(Vec::new(alloc), fail);
    let (disk, told) = acted(alloc, disk, dialect, 8192, script)?;
    assert_eq!(rt; told.as_str(), row.2, "{call}");
    let left = entries(alloc, &disk, dialect, 8192)?;
    assert_eq!(rt; left.as_str(), row.3, "{call}");
    Ok(())
}

fn assert_row<R: Abort>(
    rt: &R,
    alloc: Global,
    dialect: Dialect,
    script: &str,
    row: Row,
) -> Result<(), Fail> {
    for call in row.0..=row.1 {
        assert_left(rt, alloc, dialect, script, call, row)?;
    }
    Ok(())
}

// Loading an empty disk makes three calls, the first entry two before it, and each entry four: its
// bytes and its gate are written and synced in turn.

#[test]
fn a_commit_writes_its_entry_or_none(rt: HostRuntime) -> Result<(), Fail> {
    let script =
        "1 begin/1 user: CREATE TABLE t (n INT)/1 user: INSERT INTO t VALUES (1)/1 commit/1 begin";
    for row in [
        (1, 3, "disk fault", ""),
        (4, 8, "ok, 0, 1, disk, dead", ""),
        (
            9,
            9,
            "ok, 0, 1, disk, dead",
            "[CREATE TABLE t (n INT);INSERT INTO t VALUES (1)]",
        ),
        (
            10,
            10,
            "ok, 0, 1, ok, ok",
            "[CREATE TABLE t (n INT);INSERT INTO t VALUES (1)]",
        ),
    ] {
        assert_row(&rt, rt.alloc(), Dialect::Postgresql, script, row)?;
    }
    Ok(())
}

#[test]
fn a_call_alone_writes_a_front_of_its_entries(rt: HostRuntime) -> Result<(), Fail> {
    let script = "1 alone: CREATE TABLE t (n INT);INSERT INTO t VALUES (1)/1 rows: t";
    for row in [
        (1, 3, "disk fault", ""),
        (4, 8, "disk, dead", ""),
        (9, 12, "disk, dead", "[CREATE TABLE t (n INT)]"),
        (
            13,
            13,
            "disk, dead",
            "[CREATE TABLE t (n INT)][INSERT INTO t VALUES (1)]",
        ),
        (
            14,
            14,
            "ok, 1 rows",
            "[CREATE TABLE t (n INT)][INSERT INTO t VALUES (1)]",
        ),
    ] {
        assert_row(&rt, rt.alloc(), Dialect::Mysql, script, row)?;
    }
    Ok(())
}

#[test]
fn a_definition_writes_a_front_of_its_entries(rt: HostRuntime) -> Result<(), Fail> {
    let script =
        "1 alone: CREATE TABLE t (n INT)/1 begin/1 user: INSERT INTO t VALUES (1)/1 user: DROP TABLE t/1 abort";
    for row in [
        (4, 8, "disk, dead, dead, dead, dead", ""),
        (
            9,
            9,
            "disk, dead, dead, dead, dead",
            "[CREATE TABLE t (n INT)]",
        ),
        (10, 12, "ok, ok, 1, disk, dead", "[CREATE TABLE t (n INT)]"),
        (
            13,
            16,
            "ok, ok, 1, disk, dead",
            "[CREATE TABLE t (n INT)][INSERT INTO t VALUES (1)]",
        ),
        (
            17,
            17,
            "ok, ok, 1, disk, dead",
            "[CREATE TABLE t (n INT)][INSERT INTO t VALUES (1)][DROP TABLE t]",
        ),
        (
            18,
            18,
            "ok, ok, 1, 0, ok",
            "[CREATE TABLE t (n INT)][INSERT INTO t VALUES (1)][DROP TABLE t]",
        ),
    ] {
        assert_row(&rt, rt.alloc(), Dialect::Mysql, script, row)?;
    }
    Ok(())
}

#[test]
fn a_refused_definition_writes_the_entry_before_it(rt: HostRuntime) -> Result<(), Fail> {
    let script =
        "1 alone: CREATE TABLE t (n INT)/1 begin/1 user: INSERT INTO t VALUES (1)/1 user: DROP TABLE u/1 abort";
    for row in [
        (10, 12, "ok, ok, 1, disk, dead", "[CREATE TABLE t (n INT)]"),
        (
            13,
            13,
            "ok, ok, 1, disk, dead",
            "[CREATE TABLE t (n INT)][INSERT INTO t VALUES (1)]",
        ),
        (
            14,
            14,
            "ok, ok, 1, missing, ok",
            "[CREATE TABLE t (n INT)][INSERT INTO t VALUES (1)]",
        ),
    ] {
        assert_row(&rt, rt.alloc(), Dialect::Mysql, script, row)?;
    }
    Ok(())
}

#[test]
fn a_transaction_without_texts_needs_no_disk(rt: HostRuntime) -> Result<(), Fail> {
    let script = "1 begin/1 abort/1 begin/1 commit/1 rows: t";
    assert_row(
        &rt,
        rt.alloc(),
        Dialect::Postgresql,
        script,
        (4, 4, "ok, ok, ok, ok, no table", ""),
    )
}
