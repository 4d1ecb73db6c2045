use lq_base::Dialect;
use lq_outside::MemDisk;
use std::alloc::Global;
use std::process::Abort;
use std::test::Fail;
use tests_play::{acted, entries};

// A script, what it answers and the entries that it leaves.
type Row = (&'static str, &'static str, &'static str);

fn assert_played<R: Abort>(rt: &R, alloc: Global, dialect: Dialect, row: Row) -> Result<(), Fail> {
    let (script, told, left) = row;
    let disk = MemDisk::new(Vec::new(alloc), Vec::new(alloc));
    let (disk, is_told) = acted(alloc, disk, dialect, 8192, script)?;
    assert_eq!(rt; is_told.as_str(), told);
    let is_left = entries(alloc, &disk, dialect, 8192)?;
    assert_eq!(rt; is_left.as_str(), left);
    Ok(())
}

const SAME_IN_BOTH: [Row; 6] = [
    ("1 begin/1 commit/2 rows: t", "ok, ok, no table", ""),
    (
        "1 alone: CREATE TABLE t (n INT)/1 begin/1 user: INSERT INTO t VALUES (1)/1 rows: t/2 rows: t/2 begin/2 alone: DROP TABLE t/1 commit/2 rows: t",
        "ok, ok, 1, 1 rows, busy 1, busy 1, busy 1, ok, 1 rows",
        "[CREATE TABLE t (n INT)][INSERT INTO t VALUES (1)]",
    ),
    (
        "1 alone: CREATE TABLE t (n INT)/1 begin/1 user: INSERT INTO t VALUES (1)/1 user: INSERT INTO t VALUES (2)/1 user: UPDATE t SET n = 3/1 abort/2 begin/2 user: INSERT INTO t VALUES (4)/2 commit/1 rows: t",
        "ok, ok, 1, 1, 2, ok, ok, 1, ok, 1 rows",
        "[CREATE TABLE t (n INT)][INSERT INTO t VALUES (4)]",
    ),
    (
        "1 alone: CREATE TABLE t (n INT)/1 begin/1 user: INSERT INTO t VALUES (1)/1 user: INSERT INTO u VALUES (1)/1 user: SELEC/1 user: INSERT INTO t VALUES (2)",
        "ok, ok, 1, missing, not sql, 1",
        "[CREATE TABLE t (n INT)]",
    ),
    (
        "1 alone: CREATE TABLE t (n INT)/1 alone: INSERT INTO t VALUES (1);INSERT INTO u VALUES (1)/1 rows: t/1 alone: INSERT INTO t VALUES (1);SELEC/1 rows: t",
        "ok, missing, 0 rows, not sql, 0 rows",
        "[CREATE TABLE t (n INT)]",
    ),
    (
        "1 begin/1 user: CREATE TABLE DatabaseChangeLog (n INT)/1 abort/1 rows: t",
        "ok, reserved, ok, no table",
        "",
    ),
];

#[test]
fn sessions_take_turns(rt: HostRuntime) -> Result<(), Fail> {
    for row in SAME_IN_BOTH {
        assert_played(&rt, rt.alloc(), Dialect::Postgresql, row)?;
        assert_played(&rt, rt.alloc(), Dialect::Mysql, row)?;
    }
    Ok(())
}

#[test]
fn postgresql_takes_definitions_back(rt: HostRuntime) -> Result<(), Fail> {
    for row in [
        (
            "1 alone: CREATE TABLE t (n INT)/1 begin/1 user: INSERT INTO t VALUES (1)/1 user: CREATE TABLE u (n INT)/1 user: INSERT INTO t VALUES (2)/1 abort/1 rows: t/1 rows: u",
            "ok, ok, 1, 0, 1, ok, 0 rows, no table",
            "[CREATE TABLE t (n INT)]",
        ),
        (
            "1 begin/1 user: CREATE TABLE t (n INT)/1 user: CREATE TABLE t (n INT)/1 user: INSERT INTO t VALUES (1)/1 commit",
            "ok, 0, exists, 1, ok",
            "[CREATE TABLE t (n INT);INSERT INTO t VALUES (1)]",
        ),
        (
            "1 alone: CREATE TABLE t (n INT);INSERT INTO t VALUES (1)/1 rows: t",
            "ok, 1 rows",
            "[CREATE TABLE t (n INT);INSERT INTO t VALUES (1)]",
        ),
        (
            "1 alone: CREATE TABLE t (n INT);INSERT INTO t VALUES (1);CREATE TABLE t (n INT)/1 rows: t",
            "exists, no table",
            "",
        ),
    ] {
        assert_played(&rt, rt.alloc(), Dialect::Postgresql, row)?;
    }
    Ok(())
}

#[test]
fn mysql_commits_definitions(rt: HostRuntime) -> Result<(), Fail> {
    for row in [
        (
            "1 alone: CREATE TABLE t (n INT)/1 begin/1 user: INSERT INTO t VALUES (1)/1 user: CREATE TABLE u (n INT)/1 user: INSERT INTO t VALUES (2)/1 abort/1 rows: t/1 rows: u",
            "ok, ok, 1, 0, 1, ok, 1 rows, 0 rows",
            "[CREATE TABLE t (n INT)][INSERT INTO t VALUES (1)][CREATE TABLE u (n INT)]",
        ),
        (
            "1 alone: CREATE TABLE t (n INT)/1 begin/1 user: INSERT INTO t VALUES (1)/1 user: CREATE TABLE t (n INT)/1 user: INSERT INTO t VALUES (2)/1 abort/1 rows: t",
            "ok, ok, 1, exists, 1, ok, 1 rows",
            "[CREATE TABLE t (n INT)][INSERT INTO t VALUES (1)]",
        ),
        (
            "1 alone: CREATE TABLE t (n INT);INSERT INTO t VALUES (1);DROP TABLE u;INSERT INTO t VALUES (2)/1 rows: t",
            "missing, 1 rows",
            "[CREATE TABLE t (n INT)][INSERT INTO t VALUES (1)]",
        ),
        (
            "1 alone: CREATE TABLE t (n INT);INSERT INTO t VALUES (1);INSERT INTO u VALUES (2)/1 rows: t",
            "missing, 0 rows",
            "[CREATE TABLE t (n INT)]",
        ),
        (
            "1 alone: CREATE TABLE t (n INT);INSERT INTO t VALUES (1);SELEC/1 rows: t",
            "not sql, no table",
            "",
        ),
    ] {
        assert_played(&rt, rt.alloc(), Dialect::Mysql, row)?;
    }
    Ok(())
}
