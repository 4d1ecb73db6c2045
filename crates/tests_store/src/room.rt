ghost use Rattle.std.specs.Prelude.{◌≤◌};

use lq_base::Dialect;
use lq_outside::MemDisk;
use std::alloc::{AllocError, Global};
use std::process::Abort;
use std::test::Fail;
use tests_play::acted;

// What a script answers, and how many bytes are on the disk afterwards.
type End = (&'static str, usize);

// A script in which `#` stands for so many letters; its end under the least limit at which its entries
// fit, and its end under a limit of one byte less, 8192.
type Row = (&'static str, usize, End, End);

fn spelled(alloc: Global, script: &str, letters: usize) -> Result<String, AllocError> {
    let Some((front, behind)) = script.split_once('#') else {
        return String::from_str(alloc, script);
    };
    let mut out = String::from_str(alloc, front)?;
    for _ in 0..letters {
        out.push_str("x")?;
    }
    out.push_str(behind)?;
    Ok(out)
}

fn assert_end<R: Abort>(
    rt: &R,
    alloc: Global,
    dialect: Dialect,
    limit: u64,
    script: &str,
    end: End,
) -> Result<(), Fail>
    requires limit_least { 8192 ≤ limit }
    requires limit_most { limit ≤ 268435456 }
{
    let disk = MemDisk::new(Vec::new(alloc), Vec::new(alloc));
    let (disk, told) = acted(alloc, disk, dialect, limit, script)?;
    assert_eq!(rt; told.as_str(), end.0);
    assert_eq!(rt; disk.bytes().len(), end.1);
    Ok(())
}

fn assert_row<R: Abort>(rt: &R, alloc: Global, dialect: Dialect, row: Row) -> Result<(), Fail> {
    let script = spelled(alloc, row.0, row.1)?;
    assert_end(rt, alloc, dialect, 8193, script.as_str(), row.2)?;
    assert_end(rt, alloc, dialect, 8192, script.as_str(), row.3)
}

// The table takes 33 bytes, so 50 are in use. Its row takes 35 and its letters.
const SAME_IN_BOTH: [Row; 3] = [
    (
        "1 alone: CREATE TABLE t (s TEXT)/1 begin/1 user: INSERT INTO t VALUES ('#')/1 commit/1 abort",
        4012,
        ("ok, ok, 1, ok, out of turn", 4097),
        ("ok, ok, 1, full 50 + 4047, ok", 50),
    ),
    (
        "1 alone: CREATE TABLE t (s TEXT)/1 alone: INSERT INTO t VALUES ('#')/1 rows: t",
        4012,
        ("ok, ok, 1 rows", 4097),
        ("ok, full 50 + 4047, 0 rows", 50),
    ),
    // What frees the lock may use the last 4096 bytes too.
    (
        "1 alone: CREATE TABLE t (s TEXT)/1 release: INSERT INTO t VALUES ('#')/1 rows: t",
        8108,
        ("ok, ok, 1 rows", 8193),
        ("ok, full 50 + 8143, 0 rows", 50),
    ),
];

#[test]
fn entries_fit_to_the_byte(rt: HostRuntime) -> Result<(), Fail> {
    for row in SAME_IN_BOTH {
        assert_row(&rt, rt.alloc(), Dialect::Postgresql, row)?;
        assert_row(&rt, rt.alloc(), Dialect::Mysql, row)?;
    }
    Ok(())
}

#[test]
fn a_transaction_of_two_texts_fits_to_the_byte(rt: HostRuntime) -> Result<(), Fail> {
    assert_row(
        &rt,
        rt.alloc(),
        Dialect::Postgresql,
        (
            "1 alone: CREATE TABLE t (s TEXT)/1 alone: INSERT INTO t VALUES ('#');INSERT INTO t VALUES ('')/1 rows: t",
            3983,
            ("ok, ok, 2 rows", 4097),
            ("ok, full 50 + 4047, 0 rows", 50),
        ),
    )
}

#[test]
fn what_commits_itself_fits_to_the_byte(rt: HostRuntime) -> Result<(), Fail> {
    for row in [
        // The row and the other table, which takes 32 bytes, are an entry each.
        (
            "1 alone: CREATE TABLE t (s TEXT)/1 begin/1 user: INSERT INTO t VALUES ('#')/1 user: CREATE TABLE u (n INT)/1 rows: t/1 rows: u/1 commit",
            3980,
            ("ok, ok, 1, 0, 1 rows, 0 rows, ok", 4097),
            ("ok, ok, 1, full 50 + 4047, 1 rows, no table, ok", 4065),
        ),
        // A table that is refused writes the entry before it.
        (
            "1 alone: CREATE TABLE t (s TEXT)/1 begin/1 user: INSERT INTO t VALUES ('#')/1 user: CREATE TABLE t (n INT)/1 abort/1 rows: t",
            4012,
            ("ok, ok, 1, exists, ok, 1 rows", 4097),
            ("ok, ok, 1, full 50 + 4047, ok, 0 rows", 50),
        ),
        (
            "1 alone: CREATE TABLE t (s TEXT)/1 alone: INSERT INTO t VALUES ('#');CREATE TABLE u (n INT)/1 rows: u",
            3980,
            ("ok, ok, 0 rows", 4097),
            ("ok, full 50 + 4047, no table", 50),
        ),
        (
            "1 alone: CREATE TABLE t (s TEXT)/1 alone: INSERT INTO t VALUES ('#');CREATE TABLE t (n INT)/1 rows: t",
            4012,
            ("ok, exists, 1 rows", 4097),
            ("ok, full 50 + 4047, 0 rows", 50),
        ),
    ] {
        assert_row(&rt, rt.alloc(), Dialect::Mysql, row)?;
    }
    Ok(())
}
