use crate::running::{FileText, Span, Step, WHOLE, assert_told, run_for};
use crate::shop::{LOCKED, RELEASE, RELEASED};
use crate::stops::{Stop, assert_stop};
use std::alloc::Global;
use std::process::Abort;

const FILES: &[FileText] = &[
    (
        "db/1.json",
        r#"{"databaseChangeLog":[
{"changeSet":{"id":"1","author":"ann","changes":[
 {"createTable":{"tableName":"t","columns":[{"column":{"name":"a","type":"int"}}]}}]}}]}"#,
    ),
    (
        "db/2.json",
        r#"{"databaseChangeLog":[
{"changeSet":{"id":"2","author":"ann","changes":[
 {"createTable":{"tableName":"u","columns":[{"column":{"name":"a","type":"int"}}]}}]}}]}"#,
    ),
    (
        "db/3.json",
        r#"{"databaseChangeLog":[
{"changeSet":{"id":"3","author":"ann","changes":[
 {"createTable":{"tableName":"v","columns":[{"column":{"name":"a","type":"int"}}]}}]}}]}"#,
    ),
    (
        "db/4.json",
        r#"{"databaseChangeLog":[
{"changeSet":{"id":"4","author":"ann","changes":[
 {"createTable":{"tableName":"w","columns":[{"column":{"name":"a","type":"int"}}]}}]}}]}"#,
    ),
    (
        "db/all.json",
        r#"{"databaseChangeLog":[
{"include":{"file":"db/1.json"}},
{"include":{"file":"db/2.json"}},
{"include":{"file":"db/3.json"}},
{"include":{"file":"db/4.json"}}]}"#,
    ),
];

const UPDATES: &[(u64, Step)] = &[
    (
        1,
        (
            "update --url=postgresql:db --changelog-file=db/1.json",
            (
                0,
                "ran db/1.json::1::ann\nupdate: 1 ran, 0 ran again, 0 marked, 0 skipped, 0 not fresh\n",
                "",
            ),
        ),
    ),
    (
        5,
        (
            "update --url=postgresql:db --changelog-file=db/2.json",
            (
                0,
                "ran db/2.json::2::ann\nupdate: 1 ran, 0 ran again, 0 marked, 0 skipped, 0 not fresh\n",
                "",
            ),
        ),
    ),
    (
        2,
        (
            "update --url=postgresql:db --changelog-file=db/3.json",
            (
                0,
                "ran db/3.json::3::ann\nupdate: 1 ran, 0 ran again, 0 marked, 0 skipped, 0 not fresh\n",
                "",
            ),
        ),
    ),
    (
        6,
        (
            "update --url=postgresql:db --changelog-file=db/4.json",
            (
                0,
                "ran db/4.json::4::ann\nupdate: 1 ran, 0 ran again, 0 marked, 0 skipped, 0 not fresh\n",
                "",
            ),
        ),
    ),
];

// Four updates at their readings, of one changeset each.
fn updated(rt: &impl Abort, alloc: Global) -> Vec<u8> {
    let mut now = Vec::new(alloc);
    for update in UPDATES {
        let (reading, (words, end)) = *update;
        let span = Span { reading, ..WHOLE };
        let ran = run_for(rt, alloc, words, FILES, &now, span);
        assert_told(rt, &ran.told, end);
        now = ran.bytes;
    }
    now
}

const BACK: &str =
    "rollback-to-date --url=postgresql:db --changelog-file=db/all.json --date=1970-01-01T00:00:00.003";

const GOES_ON: &[Step] = &[
    (BACK, LOCKED),
    (RELEASE, RELEASED),
    (
        BACK,
        (
            0,
            "rolled back db/3.json::3::ann\nrolled back db/2.json::2::ann\nrollback: 2 rolled back\n",
            "",
        ),
    ),
    (
        "status --url=postgresql:db --changelog-file=db/all.json",
        (
            0,
            "pending: 3\ndb/2.json::2::ann\ndb/3.json::3::ann\ndb/4.json::4::ann\n",
            "",
        ),
    ),
];

const STOP: Stop = Stop {
    words: BACK,
    files: FILES,
    steps: GOES_ON,
};

#[test]
fn a_rollback_to_a_date_goes_on(rt: HostRuntime) {
    let updated = updated(&rt, rt.alloc());
    // sync, size, read; the entries of the lock and of the first row that is undone.
    let _left = assert_stop(&rt, rt.alloc(), &STOP, 11, &updated);
}
