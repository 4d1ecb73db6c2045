ghost use Rattle.std.specs.Prelude.{◌≡◌};
ghost use Rattle.lq_db.specs.Db.{IsValid, disk_in, engine_in};

use crate::damage::journal;
use lq_base::Dialect;
use lq_db::Db;
use lq_engine::Engine;
use lq_journal::LoadFault;
use lq_model::SqlText;
use lq_my::My;
use lq_outside::{Disk, LoadRefused, MemDisk};
use lq_pg::Pg;
use lq_snap::Snap;
use lq_store::{Executor, States, Store};
use std::alloc::{AllocError, Global};
use std::process::Abort;
use std::test::Fail;
use tests_play::play;

fn show_last<D: Disk, P: SqlText + Drop, E: Executor + Drop>(
    alloc: Global,
    db: &Db<D, P, E>,
) -> Result<String, AllocError>
    requires valid { IsValid P.dialect (D.told (disk_in db.now)) (D.crashes (disk_in db.now))
        (E.held (engine_in db.now)) db.now }
{
    if !db.is_live() {
        return String::from_str(alloc, "dead");
    }
    match db.last_text() {
        None => String::from_str(alloc, "nothing"),
        Some(text) => String::from_str(alloc, text.as_str()),
    }
}

// The last text after a script on a disk, and the disk.
fn told<D: Disk + Drop, P: SqlText + Drop, E: Executor + Drop, W: States<Engine = E>>(
    alloc: Global,
    disk: D,
    dialect: Dialect,
    sql: P,
    states: &W,
    script: &str,
) -> Result<(D, String), Fail>
    requires sql { P.dialect ≡ dialect }
{
    let loaded: Result<Db<D, P, E>, LoadRefused<D, LoadFault>> = Db::load(
        alloc, disk, dialect, sql, 8192, states,
    );
    match loaded {
        Ok(mut db) => {
            let _ = play(alloc, &mut db, script)?;
            let last = show_last(alloc, &db)?;
            Ok((db.into_disk(), last))
        }
        Err(refused) => Ok((refused.disk, String::from_str(alloc, "refused")?)),
    }
}

fn last<D: Disk + Drop>(
    alloc: Global,
    disk: D,
    dialect: Dialect,
    script: &str,
) -> Result<(D, String), Fail> {
    match dialect {
        Dialect::Postgresql => told::<D, Pg, Engine, Snap>(alloc, disk, dialect, Pg, &Snap, script),
        Dialect::Mysql => told::<D, My, Engine, Snap>(alloc, disk, dialect, My, &Snap, script),
    }
}

// A script and the last text behind it, which is the same once the journal is loaded again.
type Row = (&'static str, &'static str);

fn assert_last<R: Abort>(rt: &R, alloc: Global, dialect: Dialect, row: Row) -> Result<(), Fail> {
    let (script, want) = row;
    let disk = MemDisk::new(Vec::new(alloc), Vec::new(alloc));
    let (disk, told) = last(alloc, disk, dialect, script)?;
    assert_eq!(rt; told.as_str(), want);
    let (_, again) = last(alloc, disk, dialect, "")?;
    assert_eq!(rt; again.as_str(), want);
    Ok(())
}

// What is not committed does not count, nor what was refused.
const SAME_IN_BOTH: [Row; 9] = [
    ("1 rows: t", "nothing"),
    ("1 begin/1 commit", "nothing"),
    ("1 alone: CREATE TABLE u (n INT);SELEC", "nothing"),
    ("1 alone: CREATE TABLE t (n INT)", "CREATE TABLE t (n INT)"),
    (
        "1 alone: CREATE TABLE t (n INT)/1 alone: INSERT INTO t VALUES (1);INSERT INTO t VALUES (2)",
        "INSERT INTO t VALUES (2)",
    ),
    (
        "1 alone: CREATE TABLE t (n INT)/1 begin/1 user: INSERT INTO t VALUES (1)",
        "CREATE TABLE t (n INT)",
    ),
    (
        "1 alone: CREATE TABLE t (n INT)/1 begin/1 user: INSERT INTO t VALUES (1)/1 abort",
        "CREATE TABLE t (n INT)",
    ),
    (
        "1 alone: CREATE TABLE t (n INT)/1 begin/1 user: INSERT INTO t VALUES (1)/1 user: INSERT INTO u VALUES (1)/1 commit",
        "INSERT INTO t VALUES (1)",
    ),
    (
        "1 alone: CREATE TABLE t (n INT)/1 begin/1 user: INSERT INTO t VALUES (1)/1 commit/2 alone: DROP TABLE t/1 begin/1 commit",
        "DROP TABLE t",
    ),
];

#[test]
fn the_last_text_is_told(rt: HostRuntime) -> Result<(), Fail> {
    for row in SAME_IN_BOTH {
        assert_last(&rt, rt.alloc(), Dialect::Postgresql, row)?;
        assert_last(&rt, rt.alloc(), Dialect::Mysql, row)?;
    }
    Ok(())
}

const TWO_IN_A_TRANSACTION: &str =
    "1 alone: CREATE TABLE t (n INT)/1 begin/1 user: INSERT INTO t VALUES (1)/1 user: CREATE TABLE u (n INT)/1 user: INSERT INTO t VALUES (2)";

const DEFINED_TWICE: &str =
    "1 alone: CREATE TABLE t (n INT)/1 begin/1 user: INSERT INTO t VALUES (1)/1 user: CREATE TABLE t (n INT)";

const REFUSED_ALONE: &str = "1 alone: CREATE TABLE t (n INT);INSERT INTO t VALUES (1);DROP TABLE u";

#[test]
fn definitions_commit_under_mysql_alone(rt: HostRuntime) -> Result<(), Fail> {
    for row in [
        (TWO_IN_A_TRANSACTION, "CREATE TABLE t (n INT)"),
        (DEFINED_TWICE, "CREATE TABLE t (n INT)"),
        (REFUSED_ALONE, "nothing"),
    ] {
        assert_last(&rt, rt.alloc(), Dialect::Postgresql, row)?;
    }
    for row in [
        (TWO_IN_A_TRANSACTION, "CREATE TABLE u (n INT)"),
        (DEFINED_TWICE, "INSERT INTO t VALUES (1)"),
        (REFUSED_ALONE, "INSERT INTO t VALUES (1)"),
    ] {
        assert_last(&rt, rt.alloc(), Dialect::Mysql, row)?;
    }
    Ok(())
}

// Entries with `/` between and the last text of them: a mark is one as any other, and behind a state
// there is none until an entry of texts stands there.
const JOURNALS: [Row; 7] = [
    ("CREATE TABLE t (n INT)/empty state", "nothing"),
    (
        "x/empty state/CREATE TABLE t (n INT)",
        "CREATE TABLE t (n INT)",
    ),
    ("empty state/CREATE TABLE t (n INT)/empty state", "nothing"),
    ("CREATE TABLE t (n INT)", "CREATE TABLE t (n INT)"),
    (
        "log;lock/CREATE TABLE t (n INT)/DROP TABLE t",
        "DROP TABLE t",
    ),
    (
        r#"lock;INSERT INTO "DATABASECHANGELOGLOCK" VALUES (1, TRUE, '1970-01-01 00:00:01.000', 'host')/UPDATE "DATABASECHANGELOGLOCK" SET "LOCKEDBY" = 'host|a.json::1::ann|1' WHERE "ID" = 1"#,
        r#"UPDATE "DATABASECHANGELOGLOCK" SET "LOCKEDBY" = 'host|a.json::1::ann|1' WHERE "ID" = 1"#,
    ),
    (
        r#"lock;INSERT INTO "DATABASECHANGELOGLOCK" VALUES (1, TRUE, '1970-01-01 00:00:01.000', 'host|a.json::1::ann|1')/CREATE TABLE t (n INT)"#,
        "CREATE TABLE t (n INT)",
    ),
];

#[test]
fn the_last_text_is_that_of_the_last_entry(rt: HostRuntime) -> Result<(), Fail> {
    for (entries, want) in JOURNALS {
        let bytes = journal(rt.alloc(), b"LQJOURNAL1 PGSQL", entries, b"\x00")?;
        let disk = MemDisk::new(bytes, Vec::new(rt.alloc()));
        let (_, told) = last(rt.alloc(), disk, Dialect::Postgresql, "1 rows: t")?;
        assert_eq!(rt; told.as_str(), want);
    }
    Ok(())
}
