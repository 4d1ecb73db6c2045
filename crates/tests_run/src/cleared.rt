use crate::running::{FileText, NONE, Step, play, run_over, shown};
use crate::shop::{ALL_RAN, DRILL, SHOP, UPDATE};
use std::alloc::Global;
use std::process::Abort;

const CLEAR: &str = "clear-checksums --url=postgresql:db";

const NONE_RAN: &str = "update: 0 ran, 0 ran again, 0 marked, 0 skipped, 0 not fresh\n";

fn done(words: &'static str, out: &'static str) -> Step {
    Step {
        words,
        code: 0,
        out,
        log: "",
    }
}

#[test]
fn every_row_loses_its_checksum(rt: HostRuntime) {
    let steps = [
        done(UPDATE, ALL_RAN),
        done(CLEAR, "checksums cleared: 3\n"),
        done(UPDATE, NONE_RAN),
        done(CLEAR, "checksums cleared: 3\n"),
        done(CLEAR, "checksums cleared: 3\n"),
    ];
    let _left = play(&rt, rt.alloc(), &[SHOP], b"", &steps);
}

const THREE: FileText = (
    "db/a.json",
    r#"{"databaseChangeLog":[
{"changeSet":{"id":"1","author":"ann","changes":[{"createSequence":{"sequenceName":"a"}}]}},
{"changeSet":{"id":"2","author":"ann","changes":[{"createSequence":{"sequenceName":"b"}}]}},
{"changeSet":{"id":"3","author":"bob","changes":[{"createSequence":{"sequenceName":"c"}}]}}]}"#,
);

// The same three, each edited.
const EDITED: FileText = (
    "db/a.json",
    r#"{"databaseChangeLog":[
{"changeSet":{"id":"1","author":"ann","changes":[{"createSequence":{"sequenceName":"d"}}]}},
{"changeSet":{"id":"2","author":"ann","changes":[{"createSequence":{"sequenceName":"e"}}]}},
{"changeSet":{"id":"3","author":"bob","changes":[{"createSequence":{"sequenceName":"f"}}]}}]}"#,
);

// Each of the three has another checksum in the database.
fn assert_changed(rt: &impl Abort, alloc: Global, file: FileText, bytes: &[u8]) {
    let ran = run_over(rt, alloc, UPDATE, &[file], bytes, NONE);
    assert_eq!(rt; ran.code, 5);
    let log = shown(&ran.log);
    for identity in [
        "db/a.json::1::ann",
        "db/a.json::2::ann",
        "db/a.json::3::bob",
    ] {
        assert!(rt; log.contains(identity), "{log}");
    }
}

#[test]
fn the_next_update_fills_them_in(rt: HostRuntime) {
    let first = play(&rt, rt.alloc(), &[THREE], b"", &[done(UPDATE, ALL_RAN)]);
    assert_changed(&rt, rt.alloc(), EDITED, &first);
    let clear = done(CLEAR, "checksums cleared: 3\n");
    let cleared = play(&rt, rt.alloc(), &[], &first, &[clear]);
    let filled = play(
        &rt,
        rt.alloc(),
        &[EDITED],
        &cleared,
        &[done(UPDATE, NONE_RAN)],
    );
    assert!(rt; filled != cleared);
    assert_changed(&rt, rt.alloc(), THREE, &filled);
    let same = play(
        &rt,
        rt.alloc(),
        &[EDITED],
        &filled,
        &[done(UPDATE, NONE_RAN)],
    );
    assert!(rt; same == filled);
}

#[test]
fn without_rows_nothing_is_written(rt: HostRuntime) {
    let none = done(CLEAR, "checksums cleared: 0\n");
    let left = play(&rt, rt.alloc(), &[], b"ten bytes.", &[none]);
    assert!(rt; left.as_slice() == b"ten bytes.".as_slice());
}

const RUNS: FileText = ("runs", "update --changelog-file=db/a.json\nsteps\n1\n");

const LOCKED: Step = Step {
    words: CLEAR,
    code: 6,
    out: "",
    log: "liquibase: locked by ci#1 since 1970-01-01 00:00:01.000\n",
};

#[test]
fn a_held_lock_is_told(rt: HostRuntime) {
    let files = [SHOP, RUNS];
    let steps = [done(DRILL, "1 update: unfinished\n")];
    let held = play(&rt, rt.alloc(), &files, b"", &steps);
    let left = play(&rt, rt.alloc(), &[], &held, &[LOCKED]);
    assert!(rt; left == held);
}
