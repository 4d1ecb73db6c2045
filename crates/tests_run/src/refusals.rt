use crate::running::{FileText, NONE, Step, play, run_over};
use crate::shop::{BACK_ONE, SHOP, STATUS, UPDATE, UPDATE_MYSQL};
use std::alloc::Global;
use std::process::Abort;

pub const USAGE: &str = "liquibase: usage: liquibase COMMAND --url=DIALECT:FILE [options]\n";

const WRONG_WORDS: [&str; 8] = [
    "",
    "update",
    "update --url=oracle:db --changelog-file=db/a.json",
    "update --url=postgresql: --changelog-file=db/a.json",
    "rollback-sql --url=postgresql:db --changelog-file=db/a.json --tag=v --count=1",
    "rollback-count --url=postgresql:db --changelog-file=db/a.json --count=01",
    "tag --url=postgresql:db",
    "drill --url=postgresql:db",
];

fn assert_usage(rt: &impl Abort, alloc: Global, words: &'static str) {
    let step = Step {
        words,
        code: 2,
        out: "",
        log: USAGE,
    };
    let left = play(rt, alloc, &[SHOP], b"no journal, but not read", &[step]);
    assert!(rt; left.as_slice() == b"no journal, but not read".as_slice());
}

#[test]
fn other_words_are_usage(rt: HostRuntime) {
    for words in WRONG_WORDS {
        assert_usage(&rt, rt.alloc(), words);
    }
}

const DAMAGED: Step = Step {
    words: UPDATE,
    code: 12,
    out: "",
    log: "liquibase: database damaged at 0\n",
};

const DAMAGED_SQL: Step = Step {
    words: "update-sql --url=postgresql:db --changelog-file=db/a.json",
    code: 12,
    out: "",
    log: "liquibase: database damaged at 0\n",
};

#[test]
fn a_damaged_file_is_left_alone(rt: HostRuntime) {
    let bytes = b"xxxxxxxxxxxxxxxxxxxxxxxxxxxxxxxxxxxxxxxx".as_slice();
    let left = play(&rt, rt.alloc(), &[SHOP], bytes, &[DAMAGED, DAMAGED_SQL]);
    assert!(rt; left.as_slice() == bytes);
    let mysql = run_over(&rt, rt.alloc(), UPDATE_MYSQL, &[SHOP], b"", NONE);
    let left = play(&rt, rt.alloc(), &[SHOP], &mysql.bytes, &[DAMAGED]);
    assert!(rt; left == mysql.bytes);
}

const DAMAGED_BEHIND: [Step; 2] = [
    Step {
        words: UPDATE,
        code: 12,
        out: "",
        log: "liquibase: database damaged at 17\n",
    },
    Step {
        words: STATUS,
        code: 12,
        out: "",
        log: "liquibase: database damaged at 17\n",
    },
];

#[test]
fn damage_behind_the_header_is_told_at_its_place(rt: HostRuntime) {
    let endless = b"LQJOURNAL1 PGSQL\x01\xff\xff\xff\xff".as_slice();
    let left = play(&rt, rt.alloc(), &[SHOP], endless, &DAMAGED_BEHIND);
    assert!(rt; left.as_slice() == endless);
}

const NO_ROW: [Step; 2] = [
    Step {
        words: "tag --url=postgresql:db --tag=v1",
        code: 9,
        out: "",
        log: "liquibase: no changeset to tag\n",
    },
    Step {
        words: "rollback --url=postgresql:db --changelog-file=db/a.json --tag=v1",
        code: 9,
        out: "",
        log: "liquibase: no changeset has the tag v1\n",
    },
];

#[test]
fn without_rows_there_is_no_target(rt: HostRuntime) {
    let left = play(&rt, rt.alloc(), &[SHOP], b"", &NO_ROW);
    assert!(rt; left.is_empty());
}

const INSERTS: FileText = (
    "db/a.json",
    r#"{"databaseChangeLog":[
{"changeSet":{"id":"1","author":"ann","changes":[
 {"createTable":{"tableName":"t","columns":[{"column":{"name":"a","type":"int"}}]}}]}},
{"changeSet":{"id":"4","author":"ann","changes":[
 {"insert":{"tableName":"t","columns":[{"column":{"name":"a","valueNumeric":1}}]}}]}}]}"#,
);

const DELETES: FileText = (
    "db/a.json",
    r#"{"databaseChangeLog":[
{"changeSet":{"id":"1","author":"ann","changes":[
 {"createTable":{"tableName":"t","columns":[{"column":{"name":"a","type":"int"}}]}}]}},
{"changeSet":{"id":"4","author":"ann","changes":[
 {"insert":{"tableName":"t","columns":[{"column":{"name":"a","valueNumeric":1}}]}}],
 "rollback":[{"delete":{"tableName":"t","where":"a = 1"}}]}}]}"#,
);

const INSERTED: [Step; 1] = [Step {
    words: UPDATE,
    code: 0,
    out: "ran db/a.json::1::ann\nran db/a.json::4::ann\nupdate: 2 ran, 0 ran again, 0 marked, 0 skipped, 0 not fresh\n",
    log: "",
}];

const NOT_BACK: [Step; 1] = [Step {
    words: BACK_ONE,
    code: 10,
    out: "",
    log: "liquibase: no rollback for db/a.json::4::ann\n",
}];

const BACK: [Step; 1] = [Step {
    words: BACK_ONE,
    code: 0,
    out: "rolled back db/a.json::4::ann\nrollback: 1 rolled back\n",
    log: "",
}];

#[test]
fn an_insert_needs_a_rollback_block(rt: HostRuntime) {
    let ran = play(&rt, rt.alloc(), &[INSERTS], b"", &INSERTED);
    let same = play(&rt, rt.alloc(), &[INSERTS], &ran, &NOT_BACK);
    assert!(rt; same == ran);
    let _left = play(&rt, rt.alloc(), &[DELETES], &ran, &BACK);
}

const TWICE: FileText = (
    "db/a.json",
    r#"{"databaseChangeLog":[
{"changeSet":{"id":"1","author":"ann","changes":[
 {"createTable":{"tableName":"team","columns":[{"column":{"name":"a","type":"int"}}]}},
 {"createTable":{"tableName":"team","columns":[{"column":{"name":"a","type":"int"}}]}}]}}]}"#,
);

const REFUSED: [Step; 2] = [
    Step {
        words: UPDATE,
        code: 8,
        out: "update: 0 ran, 0 ran again, 0 marked, 0 skipped, 0 not fresh\n",
        log: "liquibase: refused at db/a.json::1::ann, statement 2, 0 kept: exists\n",
    },
    Step {
        words: "release-locks --url=postgresql:db",
        code: 0,
        out: "lock free\n",
        log: "",
    },
];

const REFUSED_MYSQL: [Step; 2] = [
    Step {
        words: UPDATE_MYSQL,
        code: 8,
        out: "update: 0 ran, 0 ran again, 0 marked, 0 skipped, 0 not fresh\n",
        log: "liquibase: refused at db/a.json::1::ann, statement 2, 1 kept: exists\n",
    },
    Step {
        words: UPDATE_MYSQL,
        code: 8,
        out: "update: 0 ran, 0 ran again, 0 marked, 0 skipped, 0 not fresh\n",
        log: "liquibase: refused at db/a.json::1::ann, statement 1, 0 kept: exists\n",
    },
];

#[test]
fn a_refused_statement_stops_the_run(rt: HostRuntime) {
    let _left = play(&rt, rt.alloc(), &[TWICE], b"", &REFUSED);
    let _other = play(&rt, rt.alloc(), &[TWICE], b"", &REFUSED_MYSQL);
}

const GOES_ON: FileText = (
    "db/a.json",
    r#"{"databaseChangeLog":[
{"changeSet":{"id":"1","author":"ann","failOnError":false,"changes":[
 {"createTable":{"tableName":"team","columns":[{"column":{"name":"a","type":"int"}}]}},
 {"createTable":{"tableName":"team","columns":[{"column":{"name":"a","type":"int"}}]}}]}},
{"changeSet":{"id":"2","author":"ann","changes":[
 {"createTable":{"tableName":"team","columns":[{"column":{"name":"a","type":"int"}}]}}]}}]}"#,
);

const WENT_ON: [Step; 1] = [Step {
    words: UPDATE,
    code: 0,
    out: "skipped db/a.json::1::ann\nran db/a.json::2::ann\nupdate: 1 ran, 0 ran again, 0 marked, 1 skipped, 0 not fresh\n",
    log: "",
}];

#[test]
fn a_refused_changeset_may_be_skipped(rt: HostRuntime) {
    let _left = play(&rt, rt.alloc(), &[GOES_ON], b"", &WENT_ON);
}
