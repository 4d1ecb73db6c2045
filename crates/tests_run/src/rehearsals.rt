use crate::running::{FileText, Step, play};
use crate::shop::{REHEARSE, SHOP, UPDATE};

const REHEARSE_MYSQL: &str = "update-testing-rollback --url=mysql:db --changelog-file=db/a.json";

// The shop runs, is taken back, and runs again; then there is nothing to run.

const SHOP_OUT: &str =
    "ran db/a.json::1::ann\nran db/a.json::2::ann\nran db/a.json::3::bob\nupdate: 3 ran, 0 ran again, 0 marked, 0 skipped, 0 not fresh\nrolled back db/a.json::3::bob\nrolled back db/a.json::2::ann\nrolled back db/a.json::1::ann\nrollback: 3 rolled back\nran db/a.json::1::ann\nran db/a.json::2::ann\nran db/a.json::3::bob\nupdate: 3 ran, 0 ran again, 0 marked, 0 skipped, 0 not fresh\n";

const NOTHING_OUT: &str =
    "update: 0 ran, 0 ran again, 0 marked, 0 skipped, 0 not fresh\nrollback: 0 rolled back\nupdate: 0 ran, 0 ran again, 0 marked, 0 skipped, 0 not fresh\n";

const ROWS: &str =
    "1 1970-01-01 00:00:01.000 EXECUTED db/a.json::1::ann\n2 1970-01-01 00:00:01.000 EXECUTED db/a.json::2::ann\n3 1970-01-01 00:00:01.000 EXECUTED db/a.json::3::bob\n";

const THREE: [Step; 3] = [
    Step {
        words: REHEARSE,
        code: 0,
        out: SHOP_OUT,
        log: "",
    },
    Step {
        words: "history --url=postgresql:db",
        code: 0,
        out: ROWS,
        log: "",
    },
    Step {
        words: REHEARSE,
        code: 0,
        out: NOTHING_OUT,
        log: "",
    },
];

const THREE_MYSQL: [Step; 2] = [
    Step {
        words: REHEARSE_MYSQL,
        code: 0,
        out: SHOP_OUT,
        log: "",
    },
    Step {
        words: "history --url=mysql:db",
        code: 0,
        out: ROWS,
        log: "",
    },
];

const BY_HAND: [Step; 3] = [
    Step {
        words: UPDATE,
        code: 0,
        out: "ran db/a.json::1::ann\nran db/a.json::2::ann\nran db/a.json::3::bob\nupdate: 3 ran, 0 ran again, 0 marked, 0 skipped, 0 not fresh\n",
        log: "",
    },
    Step {
        words: "rollback-count --url=postgresql:db --changelog-file=db/a.json --count=3",
        code: 0,
        out: "rolled back db/a.json::3::bob\nrolled back db/a.json::2::ann\nrolled back db/a.json::1::ann\nrollback: 3 rolled back\n",
        log: "",
    },
    Step {
        words: UPDATE,
        code: 0,
        out: "ran db/a.json::1::ann\nran db/a.json::2::ann\nran db/a.json::3::bob\nupdate: 3 ran, 0 ran again, 0 marked, 0 skipped, 0 not fresh\n",
        log: "",
    },
];

// One update alone writes less, so the file tells that all three ran.
#[test]
fn three_runs_write_what_each_writes(rt: HostRuntime) {
    let left = play(&rt, rt.alloc(), &[SHOP], b"", &THREE);
    let by_hand = play(&rt, rt.alloc(), &[SHOP], b"", &BY_HAND);
    assert!(rt; left == by_hand);
    let _mysql = play(&rt, rt.alloc(), &[SHOP], b"", &THREE_MYSQL);
}

// A changeset that is marked, one that is skipped, and one with a rollback block.
const MIXED: FileText = (
    "db/a.json",
    r#"{"databaseChangeLog":[
{"changeSet":{"id":"1","author":"ann","preConditions":[{"onFail":"MARK_RAN"},{"tableExists":{"tableName":"u"}}],"changes":[]}},
{"changeSet":{"id":"2","author":"ann","preConditions":[{"onFail":"CONTINUE"},{"tableExists":{"tableName":"u"}}],"changes":[]}},
{"changeSet":{"id":"3","author":"ann","changes":[
 {"createTable":{"tableName":"t","columns":[{"column":{"name":"a","type":"int"}}]}},
 {"insert":{"tableName":"t","columns":[{"column":{"name":"a","valueNumeric":1}}]}}],
 "rollback":[{"dropTable":{"tableName":"t"}}]}}]}"#,
);

const MIXED_OUT: &str =
    "marked db/a.json::1::ann\nskipped db/a.json::2::ann\nran db/a.json::3::ann\nupdate: 1 ran, 0 ran again, 1 marked, 1 skipped, 0 not fresh\nrolled back db/a.json::3::ann\nrolled back db/a.json::1::ann\nrollback: 2 rolled back\nmarked db/a.json::1::ann\nskipped db/a.json::2::ann\nran db/a.json::3::ann\nupdate: 1 ran, 0 ran again, 1 marked, 1 skipped, 0 not fresh\n";

const MIXED_STEP: [Step; 1] = [Step {
    words: REHEARSE,
    code: 0,
    out: MIXED_OUT,
    log: "",
}];

const MIXED_MYSQL: [Step; 1] = [Step {
    words: REHEARSE_MYSQL,
    code: 0,
    out: MIXED_OUT,
    log: "",
}];

#[test]
fn what_is_marked_goes_and_comes_again(rt: HostRuntime) {
    let _left = play(&rt, rt.alloc(), &[MIXED], b"", &MIXED_STEP);
    let _mysql = play(&rt, rt.alloc(), &[MIXED], b"", &MIXED_MYSQL);
}

// Its rollback block takes back less than it did, so the second update is refused.
const LESS: FileText = (
    "db/a.json",
    r#"{"databaseChangeLog":[
{"changeSet":{"id":"1","author":"ann","changes":[
 {"createTable":{"tableName":"t","columns":[{"column":{"name":"a","type":"int"}}]}}],
 "rollback":[{"delete":{"tableName":"t"}}]}}]}"#,
);

const LESS_STEP: [Step; 2] = [
    Step {
        words: REHEARSE,
        code: 8,
        out: "ran db/a.json::1::ann\nupdate: 1 ran, 0 ran again, 0 marked, 0 skipped, 0 not fresh\nrolled back db/a.json::1::ann\nrollback: 1 rolled back\nupdate: 0 ran, 0 ran again, 0 marked, 0 skipped, 0 not fresh\n",
        log: "liquibase: refused at db/a.json::1::ann, statement 1, 0 kept: exists\n",
    },
    Step {
        words: "history --url=postgresql:db",
        code: 0,
        out: "",
        log: "",
    },
];

// Its rollback block is refused, so there is no second update.
const WORSE: FileText = (
    "db/a.json",
    r#"{"databaseChangeLog":[
{"changeSet":{"id":"1","author":"ann","changes":[
 {"createTable":{"tableName":"t","columns":[{"column":{"name":"a","type":"int"}}]}}],
 "rollback":[{"dropTable":{"tableName":"u"}}]}}]}"#,
);

const WORSE_STEP: [Step; 2] = [
    Step {
        words: REHEARSE,
        code: 8,
        out: "ran db/a.json::1::ann\nupdate: 1 ran, 0 ran again, 0 marked, 0 skipped, 0 not fresh\nrollback: 0 rolled back\n",
        log: "liquibase: refused at db/a.json::1::ann, statement 1, 0 kept: missing\n",
    },
    Step {
        words: "history --url=postgresql:db",
        code: 0,
        out: "1 1970-01-01 00:00:01.000 EXECUTED db/a.json::1::ann\n",
        log: "",
    },
];

#[test]
fn a_run_that_stops_is_the_last(rt: HostRuntime) {
    let _left = play(&rt, rt.alloc(), &[LESS], b"", &LESS_STEP);
    let _none = play(&rt, rt.alloc(), &[WORSE], b"", &WORSE_STEP);
}

// It would run again, or nothing takes it back.
const AGAIN: FileText = (
    "db/a.json",
    r#"{"databaseChangeLog":[
{"changeSet":{"id":"1","author":"ann","runAlways":true,"changes":[]}},
{"changeSet":{"id":"2","author":"ann","changes":[]}}]}"#,
);

const AGAIN_STEPS: [Step; 2] = [
    Step {
        words: UPDATE,
        code: 0,
        out: "ran db/a.json::1::ann\nran db/a.json::2::ann\nupdate: 2 ran, 0 ran again, 0 marked, 0 skipped, 0 not fresh\n",
        log: "",
    },
    Step {
        words: REHEARSE,
        code: 10,
        out: "",
        log: "liquibase: no rollback for db/a.json::1::ann\n",
    },
];

const BOUND: FileText = (
    "db/a.json",
    r#"{"databaseChangeLog":[
{"preConditions":[{"tableExists":{"tableName":"u"}}]},
{"changeSet":{"id":"1","author":"ann","changes":[
 {"createTable":{"tableName":"t","columns":[{"column":{"name":"a","type":"int"}}]}}]}},
{"changeSet":{"id":"2","author":"ann","changes":[
 {"insert":{"tableName":"t","columns":[{"column":{"name":"a","valueNumeric":1}}]}}]}}]}"#,
);

const BOUND_STEP: [Step; 1] = [Step {
    words: REHEARSE,
    code: 10,
    out: "",
    log: "liquibase: no rollback for db/a.json::2::ann\n",
}];

#[test]
fn what_cannot_be_taken_back_does_not_run(rt: HostRuntime) {
    let _left = play(&rt, rt.alloc(), &[AGAIN], b"", &AGAIN_STEPS);
    let left = play(&rt, rt.alloc(), &[BOUND], b"", &BOUND_STEP);
    assert!(rt; left.is_empty());
}

// The changelog's own precondition halts it before its first run.
const HALTED: FileText = (
    "db/a.json",
    r#"{"databaseChangeLog":[
{"preConditions":[{"tableExists":{"tableName":"u"}}]},
{"changeSet":{"id":"1","author":"ann","changes":[]}}]}"#,
);

const HALTED_STEP: [Step; 1] = [Step {
    words: REHEARSE,
    code: 7,
    out: "",
    log: "liquibase: halted at the changelog: precondition failed\n",
}];

const TWICE: FileText = (
    "db/a.json",
    r#"{"databaseChangeLog":[
{"changeSet":{"id":"1","author":"ann","changes":[]}},
{"changeSet":{"id":"1","author":"ann","changes":[]}}]}"#,
);

const TWICE_STEP: [Step; 1] = [Step {
    words: REHEARSE,
    code: 5,
    out: "",
    log: "liquibase: duplicate changeset db/a.json::1::ann\n",
}];

#[test]
fn what_no_update_runs_is_not_rehearsed(rt: HostRuntime) {
    let left = play(&rt, rt.alloc(), &[HALTED], b"", &HALTED_STEP);
    assert!(rt; left.is_empty());
    let left = play(&rt, rt.alloc(), &[TWICE], b"", &TWICE_STEP);
    assert!(rt; left.is_empty());
}
