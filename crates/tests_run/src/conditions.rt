use crate::running::{FileText, Step, play};
use crate::shop::{BACK_ONE, UPDATE};

const MARKED: FileText = (
    "db/a.json",
    r#"{"databaseChangeLog":[
{"changeSet":{"id":"1","author":"ann","preConditions":[{"onFail":"MARK_RAN"},{"tableExists":{"tableName":"u"}}],
 "changes":[{"createTable":{"tableName":"t","columns":[{"column":{"name":"a","type":"int"}}]}}]}}]}"#,
);

const MARKED_STEPS: [Step; 3] = [
    Step {
        words: UPDATE,
        code: 0,
        out: "marked db/a.json::1::ann\nupdate: 0 ran, 0 ran again, 1 marked, 0 skipped, 0 not fresh\n",
        log: "",
    },
    Step {
        words: "rollback-sql --url=postgresql:db --changelog-file=db/a.json --count=1",
        code: 0,
        out: "-- Rollback db/a.json::1::ann\n",
        log: "",
    },
    Step {
        words: BACK_ONE,
        code: 0,
        out: "rolled back db/a.json::1::ann\nrollback: 1 rolled back\n",
        log: "",
    },
];

#[test]
fn a_changeset_is_marked(rt: HostRuntime) {
    let _left = play(&rt, rt.alloc(), &[MARKED], b"", &MARKED_STEPS);
}

const HALTED: FileText = (
    "db/a.json",
    r#"{"databaseChangeLog":[
{"changeSet":{"id":"1","author":"ann","changes":[]}},
{"changeSet":{"id":"2","author":"ann","changes":[]}},
{"changeSet":{"id":"3","author":"bob","preConditions":[{"tableExists":{"tableName":"u"}}],"changes":[]}}]}"#,
);

const HALTED_STEPS: [Step; 4] = [
    Step {
        words: UPDATE,
        code: 7,
        out: "ran db/a.json::1::ann\nran db/a.json::2::ann\nupdate: 2 ran, 0 ran again, 0 marked, 0 skipped, 0 not fresh\n",
        log: "liquibase: halted at db/a.json::3::bob: precondition failed\n",
    },
    Step {
        words: "status --url=postgresql:db --changelog-file=db/a.json",
        code: 0,
        out: "pending: 1\ndb/a.json::3::bob\n",
        log: "",
    },
    Step {
        words: "update-sql --url=postgresql:db --changelog-file=db/a.json",
        code: 7,
        out: "",
        log: "liquibase: halted at db/a.json::3::bob: precondition failed\n",
    },
    Step {
        words: "release-locks --url=postgresql:db",
        code: 0,
        out: "lock free\n",
        log: "",
    },
];

#[test]
fn a_condition_halts(rt: HostRuntime) {
    let _left = play(&rt, rt.alloc(), &[HALTED], b"", &HALTED_STEPS);
}

const OWN_HALTS: FileText = (
    "db/a.json",
    r#"{"databaseChangeLog":[
{"preConditions":[{"tableExists":{"tableName":"u"}}]},
{"changeSet":{"id":"1","author":"ann","changes":[]}}]}"#,
);

const OWN_WARNS: FileText = (
    "db/a.json",
    r#"{"databaseChangeLog":[
{"preConditions":[{"onFail":"WARN"},{"tableExists":{"tableName":"u"}}]},
{"changeSet":{"id":"1","author":"ann","preConditions":[{"onFail":"WARN"},{"rowCount":{"tableName":"u","expectedRows":1}},{"onError":"WARN"}],"changes":[]}}]}"#,
);

const OWN_HALTS_STEPS: [Step; 1] = [Step {
    words: UPDATE,
    code: 7,
    out: "",
    log: "liquibase: halted at the changelog: precondition failed\n",
}];

const OWN_WARNS_STEPS: [Step; 1] = [Step {
    words: UPDATE,
    code: 0,
    out: "ran db/a.json::1::ann\nupdate: 1 ran, 0 ran again, 0 marked, 0 skipped, 0 not fresh\n",
    log: "liquibase: warning: the changelog: precondition failed\nliquibase: warning: db/a.json::1::ann: precondition error: missing\n",
}];

#[test]
fn the_changelog_has_a_condition(rt: HostRuntime) {
    let left = play(&rt, rt.alloc(), &[OWN_HALTS], b"", &OWN_HALTS_STEPS);
    assert!(rt; left.is_empty());
    let _left = play(&rt, rt.alloc(), &[OWN_WARNS], b"", &OWN_WARNS_STEPS);
}

const CONTINUES: FileText = (
    "db/a.json",
    r#"{"databaseChangeLog":[
{"changeSet":{"id":"1","author":"ann","preConditions":[{"onFail":"CONTINUE"},{"tableExists":{"tableName":"u"}}],
 "changes":[{"createTable":{"tableName":"t","columns":[{"column":{"name":"a","type":"int"}}]}}]}},
{"changeSet":{"id":"2","author":"ann","changes":[{"createTable":{"tableName":"u","columns":[{"column":{"name":"a","type":"int"}}]}}]}},
{"changeSet":{"id":"3","author":"ann","changes":[{"createTable":{"tableName":"w","columns":[{"column":{"name":"a","type":"int"}}]}}]}}]}"#,
);

const CONTINUES_STEPS: [Step; 2] = [
    Step {
        words: UPDATE,
        code: 0,
        out: "skipped db/a.json::1::ann\nran db/a.json::2::ann\nran db/a.json::3::ann\nupdate: 2 ran, 0 ran again, 0 marked, 1 skipped, 0 not fresh\n",
        log: "",
    },
    Step {
        words: UPDATE,
        code: 0,
        out: "ran db/a.json::1::ann\nupdate: 1 ran, 0 ran again, 0 marked, 0 skipped, 0 not fresh\n",
        log: "",
    },
];

#[test]
fn a_skipped_changeset_runs_later(rt: HostRuntime) {
    let _left = play(&rt, rt.alloc(), &[CONTINUES], b"", &CONTINUES_STEPS);
}

const BEFORE: FileText = (
    "db/a.json",
    r#"{"databaseChangeLog":[{"changeSet":{"id":"1","author":"ann","changes":[]}}]}"#,
);

const EDITED: FileText = (
    "db/a.json",
    r#"{"databaseChangeLog":[{"changeSet":{"id":"1","author":"ann","changes":[{"empty":{}}]}}]}"#,
);

const EDITED_RUNS: FileText = (
    "db/a.json",
    r#"{"databaseChangeLog":[{"changeSet":{"id":"1","author":"ann","runOnChange":true,"changes":[{"empty":{}}]}}]}"#,
);

const ONE_RAN: [Step; 1] = [Step {
    words: UPDATE,
    code: 0,
    out: "ran db/a.json::1::ann\nupdate: 1 ran, 0 ran again, 0 marked, 0 skipped, 0 not fresh\n",
    log: "",
}];

const EDITED_STEPS: [Step; 1] = [Step {
    words: UPDATE,
    code: 5,
    out: "",
    log: "liquibase: checksum of db/a.json::1::ann was P2:d751713988987e9331980363e24189ce, is P2:191758431351e68dbdffd5a2f9aebcaf\n",
}];

const AGAIN_STEPS: [Step; 2] = [
    Step {
        words: UPDATE,
        code: 0,
        out: "ran again db/a.json::1::ann\nupdate: 0 ran, 1 ran again, 0 marked, 0 skipped, 0 not fresh\n",
        log: "",
    },
    Step {
        words: UPDATE,
        code: 0,
        out: "update: 0 ran, 0 ran again, 0 marked, 0 skipped, 0 not fresh\n",
        log: "",
    },
];

#[test]
fn an_edited_changeset_is_refused_or_runs_again(rt: HostRuntime) {
    let ran = play(&rt, rt.alloc(), &[BEFORE], b"", &ONE_RAN);
    let same = play(&rt, rt.alloc(), &[EDITED], &ran, &EDITED_STEPS);
    assert!(rt; same == ran);
    let _left = play(&rt, rt.alloc(), &[EDITED_RUNS], &ran, &AGAIN_STEPS);
}
