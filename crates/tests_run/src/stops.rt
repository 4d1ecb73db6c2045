use crate::running::{Failing, FileText, NONE, Step, play, run_over};
use crate::shop::UPDATE_MYSQL;
use std::alloc::Global;
use std::process::Abort;

const ONE_TABLE: FileText = (
    "db/a.json",
    r#"{"databaseChangeLog":[
{"changeSet":{"id":"2","author":"ann","changes":[
 {"createTable":{"tableName":"t","columns":[{"column":{"name":"a","type":"int"}}]}}]}}]}"#,
);

const LOCKED: &str =
    "liquibase: locked by ci since 1970-01-01 00:00:01.000\nliquibase: unrecorded: db/a.json::2::ann, statement 1\n";

// The bytes that a disk fault leaves, at the last call at which the changeset is unrecorded.
fn stopped(rt: &impl Abort, alloc: Global) -> Vec<u8> {
    let mut left = Vec::new(alloc);
    for disk in 1..100 {
        let failing = Failing { disk, ..NONE };
        let ran = run_over(rt, alloc, UPDATE_MYSQL, &[ONE_TABLE], b"", failing);
        let next = run_over(rt, alloc, UPDATE_MYSQL, &[ONE_TABLE], &ran.bytes, NONE);
        if next.log.as_slice() == LOCKED.as_bytes() {
            left = ran.bytes;
        }
    }
    left
}

const RELEASED: [Step; 8] = [
    Step {
        words: UPDATE_MYSQL,
        code: 6,
        out: "",
        log: LOCKED,
    },
    Step {
        words: "update-count --url=mysql:db --changelog-file=db/a.json --count=0",
        code: 6,
        out: "",
        log: LOCKED,
    },
    Step {
        words: "update-testing-rollback --url=mysql:db --changelog-file=db/a.json",
        code: 6,
        out: "",
        log: LOCKED,
    },
    Step {
        words: "update-to-tag --url=mysql:db --changelog-file=db/a.json --tag=v1",
        code: 9,
        out: "",
        log: "liquibase: no changeset has the tag v1\n",
    },
    Step {
        words: "history --url=mysql:db",
        code: 0,
        out: "",
        log: "",
    },
    Step {
        words: "release-locks --url=mysql:db",
        code: 0,
        out: "lock released: held by ci since 1970-01-01 00:00:01.000\nunrecorded: db/a.json::2::ann, statement 1\n",
        log: "",
    },
    Step {
        words: "release-locks --url=mysql:db",
        code: 0,
        out: "lock free\n",
        log: "",
    },
    Step {
        words: UPDATE_MYSQL,
        code: 8,
        out: "update: 0 ran, 0 ran again, 0 marked, 0 skipped, 0 not fresh\n",
        log: "liquibase: refused at db/a.json::2::ann, statement 1, 0 kept: exists\n",
    },
];

#[test]
fn an_unrecorded_statement_is_named(rt: HostRuntime) {
    let left = stopped(&rt, rt.alloc());
    assert!(rt; !left.is_empty());
    let _left = play(&rt, rt.alloc(), &[ONE_TABLE], &left, &RELEASED);
}
