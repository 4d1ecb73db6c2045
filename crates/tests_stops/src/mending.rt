use crate::running::{End, FileText, Span, Step, WHOLE, play, run_for};
use crate::shop::{ALL_RAN, LAST_RAN, LOOK, LOOKED, NONE_RAN, SHOP, TWO_RAN, UPDATE, UPDATE_MYSQL};
use crate::stops::{Stop, assert_stop};
use std::alloc::Global;
use std::process::Abort;

const UNDO: &str = "undo-unrecorded --url=postgresql:db --changelog-file=db/a.json";

const UNDO_MYSQL: &str = "undo-unrecorded --url=mysql:db --changelog-file=db/a.json";

const NOTHING: End = (18, "", "liquibase: nothing to undo\n");

const FIRST_NONE: End = (0, "undone db/a.json::1::ann, 0 statements\n", "");

const FIRST_ONE: End = (0, "undone db/a.json::1::ann, 1 statements\n", "");

const FIRST_BOTH: End = (0, "undone db/a.json::1::ann, 2 statements\n", "");

const SECOND_NONE: End = (0, "undone db/a.json::2::ann, 0 statements\n", "");

const SECOND_ONE: End = (0, "undone db/a.json::2::ann, 1 statements\n", "");

const THIRD_ONE: End = (0, "undone db/a.json::3::bob, 1 statements\n", "");

const LOOKED_AT: Step = (
    "update-sql --url=mysql:db --changelog-file=db/look.json",
    LOOKED,
);

const FILES: &[FileText] = &[SHOP, LOOK];

const NOTHING_MORE: &[Step] = &[(UNDO_MYSQL, NOTHING)];

// After how many calls of the disk an update is stopped, what undo-unrecorded then tells, and what the
// next update tells. The first five calls write no entry; each entry takes four.
const ROWS: [(u64, End, End); 7] = [
    (20, FIRST_NONE, ALL_RAN),
    (24, FIRST_ONE, ALL_RAN),
    (28, FIRST_ONE, ALL_RAN),
    (32, FIRST_BOTH, ALL_RAN),
    (40, SECOND_NONE, TWO_RAN),
    (44, SECOND_ONE, TWO_RAN),
    (56, THIRD_ONE, LAST_RAN),
];

fn assert_row(rt: &impl Abort, alloc: Global, row: (u64, End, End)) {
    let stop = Stop {
        words: UPDATE_MYSQL,
        files: FILES,
        steps: &[],
    };
    let left = assert_stop(rt, alloc, &stop, row.0, b"");
    let steps = [
        (UNDO_MYSQL, row.1),
        (UNDO_MYSQL, NOTHING),
        (UPDATE_MYSQL, row.2),
        LOOKED_AT,
    ];
    let _last = play(rt, alloc, FILES, &left, &steps);
}

#[test]
fn what_stands_without_a_row_is_undone(rt: HostRuntime) {
    for row in &ROWS {
        assert_row(&rt, rt.alloc(), *row);
    }
}

// The lock is free; it is held without a mark.
const NOTHING_ROWS: [u64; 3] = [4, 16, 36];

fn assert_nothing(rt: &impl Abort, alloc: Global, calls: u64) {
    let stop = Stop {
        words: UPDATE_MYSQL,
        files: FILES,
        steps: NOTHING_MORE,
    };
    let left = assert_stop(rt, alloc, &stop, calls, b"");
    let again = play(rt, alloc, FILES, &left, NOTHING_MORE);
    assert!(rt; again == left);
}

#[test]
fn without_a_mark_there_is_nothing_to_undo(rt: HostRuntime) {
    for calls in &NOTHING_ROWS {
        assert_nothing(&rt, rt.alloc(), *calls);
    }
    let steps = [(UPDATE, ALL_RAN), (UNDO, NOTHING), (UPDATE, NONE_RAN)];
    let _last = play(&rt, rt.alloc(), &[SHOP], b"", &steps);
}

// Two columns, of which the first has two statements.
const COLUMNS: FileText = (
    "db/a.json",
    r#"{"databaseChangeLog":[
{"changeSet":{"id":"1","author":"ann","changes":[
 {"createTable":{"tableName":"team","columns":[{"column":{"name":"id","type":"int"}}]}}]}},
{"changeSet":{"id":"2","author":"ann","changes":[
 {"addColumn":{"tableName":"team","columns":[
  {"column":{"name":"size","type":"int","valueNumeric":1}},
  {"column":{"name":"name","type":"varchar(40)"}}]}}]}}]}"#,
);

const COLUMN_FILES: &[FileText] = &[COLUMNS];

const COLUMNS_RAN: End = (
    0,
    "ran db/a.json::2::ann\nupdate: 1 ran, 0 ran again, 0 marked, 0 skipped, 0 not fresh\n",
    "",
);

// Stopped after so many calls, a repair is run again to its end, and then the update. False where it
// needed no more calls.
fn mends(rt: &impl Abort, alloc: Global, bytes: &[u8], calls: u64) -> bool {
    let span = Span { calls, ..WHOLE };
    let ran = run_for(rt, alloc, UNDO_MYSQL, COLUMN_FILES, bytes, span);
    if ran.told.code == 0 {
        return false;
    }
    let again = run_for(rt, alloc, UNDO_MYSQL, COLUMN_FILES, &ran.bytes, WHOLE);
    assert!(rt; again.told.code == 0 || again.told.code == 18, "{calls}");
    let steps = [(UPDATE_MYSQL, COLUMNS_RAN)];
    let _last = play(rt, alloc, COLUMN_FILES, &again.bytes, &steps);
    true
}

#[test]
fn a_repair_may_be_stopped_itself(rt: HostRuntime) {
    let stop = Stop {
        words: UPDATE_MYSQL,
        files: COLUMN_FILES,
        steps: &[],
    };
    // Its third statement stands, which was marked together with the second.
    let left = assert_stop(&rt, rt.alloc(), &stop, 44, b"");
    let mut ended = 0;
    for calls in 0..1000 {
        if !mends(&rt, rt.alloc(), &left, calls) {
            ended = calls;
            break;
        }
    }
    assert!(rt; ended > 20);
    let steps = [(
        UNDO_MYSQL,
        (0, "undone db/a.json::2::ann, 3 statements\n", ""),
    )];
    let _last = play(&rt, rt.alloc(), COLUMN_FILES, &left, &steps);
}
