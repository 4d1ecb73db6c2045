use lq_host::{FileDisk, HostClock, HostFiles, Stream};
use lq_top::run;
use std::fs::{self, File};
use std::test::Fail;

const CHANGELOG: &str =
    r#"{"databaseChangeLog":[{"changeSet":{"id":"1","author":"ann","changes":[{"createTable":{"tableName":"t","columns":[{"column":{"name":"id","type":"int"}}]}}]}}]}"#;

const URL: &str = "--url=postgresql:run_test/db";

const PATH: &str = "--changelog-file=run_test/r1.json";

// Runs a command with the adapters of the system, and gives its status.
fn ran(rt: &HostRuntime, given: &[&str], out: File, log: File) -> Result<u8, Fail> {
    let mut words = Vec::new(rt.alloc());
    for word in given {
        words.push(String::from_str(rt.alloc(), word)?)?;
    }
    let mut files = HostFiles::new(rt);
    let disk = FileDisk::open(rt, "run_test/db");
    let mut clock = HostClock::new(rt);
    let mut out = Stream::new(out);
    let mut log = Stream::new(log);
    let ended = run(
        rt.alloc(),
        &words,
        "ann",
        &mut files,
        disk,
        &mut clock,
        &mut out,
        &mut log,
    );
    Ok(ended.status.code())
}

// Whether a command comes to its end and prints the text.
fn prints(rt: &HostRuntime, given: &[&str], text: &str) -> Result<bool, Fail> {
    let out = File::create(rt, "run_test/out")?;
    let log = File::create(rt, "run_test/log")?;
    let status = ran(rt, given, out, log)?;
    let printed = fs::read_to_string(rt, "run_test/out")?;
    let logged = fs::metadata(rt, "run_test/log")?.len();
    Ok(status == 0 && printed.as_str() == text && logged == 0)
}

#[test]
fn a_real_file_is_updated_and_taken_back(rt: HostRuntime) -> Result<(), Fail> {
    let _absent = fs::remove_dir_all(&rt, "run_test");
    fs::create_dir_all(&rt, "run_test")?;
    fs::write(&rt, "run_test/r1.json", CHANGELOG)?;
    let update = ["update", URL, PATH];
    let back = ["rollback-count", URL, PATH, "--count=1"];
    let ran =
        "ran run_test/r1.json::1::ann\nupdate: 1 ran, 0 ran again, 0 marked, 0 skipped, 0 not fresh\n";
    let none = "update: 0 ran, 0 ran again, 0 marked, 0 skipped, 0 not fresh\n";
    let taken = "rolled back run_test/r1.json::1::ann\nrollback: 1 rolled back\n";
    assert!(rt; prints(&rt, &update, ran)?);
    assert!(rt; prints(&rt, &update, none)?);
    assert!(rt; prints(&rt, &back, taken)?);
    assert!(rt; prints(&rt, &update, ran)?);
    fs::remove_dir_all(&rt, "run_test")?;
    Ok(())
}
