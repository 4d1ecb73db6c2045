use crate::running::{FileText, Step, WHOLE, play, run_for};
use crate::shop::{
    ALL_RAN, LOCKED, RELEASE, RELEASE_MYSQL, RELEASED, RELEASED_NOTHING, SHOP, STATUS, UPDATE,
};
use crate::stops::{Stop, assert_stop};

const BEFORE_THE_GATE: &[Step] = &[
    (
        STATUS,
        (
            0,
            "pending: 3\ndb/a.json::1::ann\ndb/a.json::2::ann\ndb/a.json::3::bob\n",
            "",
        ),
    ),
    (RELEASE, RELEASED_NOTHING),
    (UPDATE, ALL_RAN),
];

const BEHIND_THE_GATE: &[Step] = &[
    (
        STATUS,
        (
            0,
            "pending: 3\ndb/a.json::1::ann\ndb/a.json::2::ann\ndb/a.json::3::bob\n",
            "",
        ),
    ),
    (UPDATE, LOCKED),
    (RELEASE, RELEASED),
    (RELEASE, RELEASED_NOTHING),
    (UPDATE, ALL_RAN),
];

const EMPTY: Stop = Stop {
    words: UPDATE,
    files: &[SHOP],
    steps: BEFORE_THE_GATE,
};

// An update that stops before its first entry's gate was opened leaves an empty journal: the next one
// writes over all that it wrote.
#[test]
fn before_the_first_gate_the_journal_is_empty(rt: HostRuntime) {
    let whole = run_for(&rt, rt.alloc(), UPDATE, &[SHOP], b"", WHOLE);
    // The entry was written, or synced too: then the third write, that of the gate, fails.
    for calls in [6, 7] {
        let left = assert_stop(&rt, rt.alloc(), &EMPTY, calls, b"");
        assert!(rt; left == whole.bytes);
    }
}

const TAKEN: Stop = Stop {
    words: UPDATE,
    files: &[SHOP],
    steps: BEHIND_THE_GATE,
};

#[test]
fn behind_the_first_gate_the_lock_is_held(rt: HostRuntime) {
    // The gate was written, or synced too.
    for calls in [8, 9] {
        let _left = assert_stop(&rt, rt.alloc(), &TAKEN, calls, b"");
    }
}

const YAML: FileText = (
    "db/a.yaml",
    "databaseChangeLog:
- changeSet:
    id: 1
    author: ann
    changes: []
- changeSet:
    id: 2
    author: ann
    changes:
    - createTable:
        tableName: t
        columns:
        - column:
            name: a
            type: int
",
);

const UPDATE_YAML: &str = "update --url=mysql:db --changelog-file=db/a.yaml";

const UNRECORDED: Step = (
    UPDATE_YAML,
    (
        6,
        "",
        "liquibase: locked by ci since 1970-01-01 00:00:01.000\nliquibase: unrecorded: db/a.yaml::2::ann, statement 1\n",
    ),
);

const RELEASED_MARK: Step = (
    RELEASE_MYSQL,
    (
        0,
        "lock released: held by ci since 1970-01-01 00:00:01.000\nunrecorded: db/a.yaml::2::ann, statement 1\n",
        "",
    ),
);

const TABLE_THERE: &[Step] = &[
    UNRECORDED,
    RELEASED_MARK,
    (RELEASE_MYSQL, RELEASED_NOTHING),
    (
        UPDATE_YAML,
        (
            8,
            "update: 0 ran, 0 ran again, 0 marked, 0 skipped, 0 not fresh\n",
            "liquibase: refused at db/a.yaml::2::ann, statement 1, 0 kept: exists\n",
        ),
    ),
];

const TABLE_NOT_THERE: &[Step] = &[
    UNRECORDED,
    RELEASED_MARK,
    (RELEASE_MYSQL, RELEASED_NOTHING),
    (
        UPDATE_YAML,
        (
            0,
            "ran db/a.yaml::2::ann\nupdate: 1 ran, 0 ran again, 0 marked, 0 skipped, 0 not fresh\n",
            "",
        ),
    ),
];

const BEFORE: Stop = Stop {
    words: UPDATE_YAML,
    files: &[YAML],
    steps: TABLE_NOT_THERE,
};

const BEHIND: Stop = Stop {
    words: UPDATE_YAML,
    files: &[YAML],
    steps: TABLE_THERE,
};

// sync, size, read; header, sync. Then each entry has two writes and two syncs, and stands from its second
// write on: two tables, the lock, the first row, the mark, the table.
#[test]
fn a_mark_stands_before_and_behind_its_statement(rt: HostRuntime) {
    for calls in [24, 25, 27] {
        let _left = assert_stop(&rt, rt.alloc(), &BEFORE, calls, b"");
    }
    for calls in [28, 29] {
        let _left = assert_stop(&rt, rt.alloc(), &BEHIND, calls, b"");
    }
}

const APART: FileText = (
    "db/a.json",
    r#"{"databaseChangeLog":[
{"changeSet":{"id":"1","author":"ann","runInTransaction":false,"changes":[
 {"createTable":{"tableName":"t","columns":[{"column":{"name":"a","type":"int"}}]}},
 {"createTable":{"tableName":"u","columns":[{"column":{"name":"a","type":"int"}}]}}]}}]}"#,
);

// A changeset that is printed only where the first table is there and the second one is not.
const LOOK: FileText = (
    "db/look.json",
    r#"{"databaseChangeLog":[
{"changeSet":{"id":"look","author":"ann","changes":[],"preConditions":[
 {"tableExists":{"tableName":"t"}},
 {"not":[{"tableExists":{"tableName":"u"}}]}]}}]}"#,
);

const ONE_TABLE: &[Step] = &[
    (
        UPDATE,
        (
            6,
            "",
            "liquibase: locked by ci since 1970-01-01 00:00:01.000\nliquibase: unrecorded: db/a.json::1::ann, statement 1\n",
        ),
    ),
    (
        RELEASE,
        (
            0,
            "lock released: held by ci since 1970-01-01 00:00:01.000\nunrecorded: db/a.json::1::ann, statement 1\n",
            "",
        ),
    ),
    (
        "update-sql --url=postgresql:db --changelog-file=db/look.json",
        (0, "-- Changeset db/look.json::look::ann\n", ""),
    ),
    (
        UPDATE,
        (
            8,
            "update: 0 ran, 0 ran again, 0 marked, 0 skipped, 0 not fresh\n",
            "liquibase: refused at db/a.json::1::ann, statement 1, 0 kept: exists\n",
        ),
    ),
];

const ONE_OF_TWO: Stop = Stop {
    words: UPDATE,
    files: &[APART, LOOK],
    steps: ONE_TABLE,
};

#[test]
fn statements_that_are_committed_apart_have_their_mark(rt: HostRuntime) {
    // The entries of the lock and of the first table.
    let _left = assert_stop(&rt, rt.alloc(), &ONE_OF_TWO, 13, b"");
}

const RECORDED: &[Step] = &[
    (UPDATE, LOCKED),
    (RELEASE, RELEASED),
    (
        UPDATE,
        (
            0,
            "update: 0 ran, 0 ran again, 0 marked, 0 skipped, 0 not fresh\n",
            "",
        ),
    ),
];

const ROW: Stop = Stop {
    words: UPDATE,
    files: &[APART],
    steps: RECORDED,
};

#[test]
fn behind_the_row_there_is_no_mark(rt: HostRuntime) {
    // The entries of the lock, of both tables and of the row; then that of the free lock is written.
    for calls in [20, 21, 23] {
        let _left = assert_stop(&rt, rt.alloc(), &ROW, calls, b"");
    }
}

const SKIPPED: FileText = (
    "db/a.json",
    r#"{"databaseChangeLog":[
{"changeSet":{"id":"1","author":"ann","preConditions":[{"onFail":"CONTINUE"},{"tableExists":{"tableName":"u"}}],
 "changes":[{"createTable":{"tableName":"t","columns":[{"column":{"name":"a","type":"int"}}]}}]}},
{"changeSet":{"id":"2","author":"ann","changes":[
 {"createTable":{"tableName":"u","columns":[{"column":{"name":"a","type":"int"}}]}}]}},
{"changeSet":{"id":"3","author":"ann","changes":[
 {"createTable":{"tableName":"w","columns":[{"column":{"name":"a","type":"int"}}]}}]}}]}"#,
);

const WITHOUT_STOP: &[Step] = &[(
    UPDATE,
    (
        0,
        "skipped db/a.json::1::ann\nran db/a.json::2::ann\nran db/a.json::3::ann\nupdate: 2 ran, 0 ran again, 0 marked, 1 skipped, 0 not fresh\n",
        "",
    ),
)];

const WITH_STOP: &[Step] = &[
    (RELEASE, RELEASED),
    (
        UPDATE,
        (
            0,
            "ran db/a.json::1::ann\nran db/a.json::3::ann\nupdate: 2 ran, 0 ran again, 0 marked, 0 skipped, 0 not fresh\n",
            "",
        ),
    ),
];

const SKIPS: Stop = Stop {
    words: UPDATE,
    files: &[SKIPPED],
    steps: WITH_STOP,
};

#[test]
fn a_skipped_changeset_may_run_after_a_stop(rt: HostRuntime) {
    let _whole = play(&rt, rt.alloc(), &[SKIPPED], b"", WITHOUT_STOP);
    // The entries of the lock and of the second changeset.
    let _left = assert_stop(&rt, rt.alloc(), &SKIPS, 13, b"");
}
