use crate::opened::acted;
use lq_base::Dialect;
use std::alloc::Global;
use std::process::Abort;
use std::test::Fail;

// A script, what it answers, and one that leaves the same on the disk.
type Row = (&'static str, &'static str, &'static str);

fn assert_played<R: Abort>(rt: &R, alloc: Global, dialect: Dialect, row: Row) -> Result<(), Fail> {
    let (script, told, as_script) = row;
    let (disk, is_told) = acted(alloc, dialect, 0, script)?;
    assert_eq!(rt; is_told.as_str(), told);
    let (as_disk, _) = acted(alloc, dialect, 0, as_script)?;
    let left = disk.bytes().len();
    assert!(rt; disk.bytes() == as_disk.bytes(), "{left}");
    Ok(())
}

const OPEN_ELSEWHERE: [Row; 3] = [
    (
        "1 begin/2 take bob/2 tag v/2 free/1 abort/2 lock",
        "ok, busy 1, busy 1, busy 1, ok, free",
        "",
    ),
    (
        "1 take ann/1 begin/2 take bob/2 tag v/2 free/1 abort/2 lock",
        "ok, ok, busy 1, busy 1, busy 1, ok, held since 1000 by ann",
        "1 take ann",
    ),
    (
        "1 begin/2 take bob/1 abort/2 take bob/1 lock",
        "ok, busy 1, ok, ok, held since 1000 by bob",
        "2 take bob",
    ),
];

#[test]
fn calls_wait_for_an_open_transaction(rt: HostRuntime) -> Result<(), Fail> {
    for row in OPEN_ELSEWHERE {
        assert_played(&rt, rt.alloc(), Dialect::Postgresql, row)?;
        assert_played(&rt, rt.alloc(), Dialect::Mysql, row)?;
    }
    Ok(())
}

const STEPS: [Row; 6] = [
    (
        "1 take ann/2 lock/1 step ann/2 lock",
        "ok, held since 1000 by ann, ended done, free",
        "1 take ann/1 free",
    ),
    // Another session frees the lock, and may take it.
    (
        "1 take ann/2 free/1 step ann",
        "ok, ok, ended free",
        "1 take ann/2 free",
    ),
    (
        "1 take ann/2 free/2 take bob/1 step ann/2 step bob",
        "ok, ok, ok, ended held since 1000 by bob, ended done",
        "1 take ann/2 free/2 take bob/2 free",
    ),
    // The name alone does not tell who holds it, nor does its beginning.
    (
        "1 take ann/1 later ann",
        "ok, ended held since 1000 by ann",
        "1 take ann",
    ),
    (
        "1 take annie/1 step ann",
        "ok, ended held since 1000 by annie",
        "1 take annie",
    ),
    ("1 step ann", "ended free", ""),
];

#[test]
fn a_command_without_its_lock_writes_nothing(rt: HostRuntime) -> Result<(), Fail> {
    for row in STEPS {
        assert_played(&rt, rt.alloc(), Dialect::Postgresql, row)?;
        assert_played(&rt, rt.alloc(), Dialect::Mysql, row)?;
    }
    Ok(())
}

#[test]
fn a_mark_behind_the_name_is_its_own(rt: HostRuntime) -> Result<(), Fail> {
    assert_played(
        &rt,
        rt.alloc(),
        Dialect::Postgresql,
        (
            r#"1 take ann/2 text UPDATE "DATABASECHANGELOGLOCK" SET "LOCKEDBY" = 'ann|1'/1 lock/1 step ann/1 lock"#,
            "ok, ok, held since 1000 by ann|1, ended done, free",
            r#"1 take ann/2 text UPDATE "DATABASECHANGELOGLOCK" SET "LOCKEDBY" = 'ann|1'/1 free"#,
        ),
    )?;
    assert_played(
        &rt,
        rt.alloc(),
        Dialect::Mysql,
        (
            "1 take ann/2 text UPDATE DATABASECHANGELOGLOCK SET LOCKEDBY = 'ann|1'/1 lock/1 step ann/1 lock",
            "ok, ok, held since 1000 by ann|1, ended done, free",
            "1 take ann/2 text UPDATE DATABASECHANGELOGLOCK SET LOCKEDBY = 'ann|1'/1 free",
        ),
    )
}
