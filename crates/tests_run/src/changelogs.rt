use crate::running::{FileText, NONE, Step, play, run_over};
use crate::shop::{STATUS, UPDATE};

const PROPERTIES: FileText = (
    "db/a.json",
    r#"{"databaseChangeLog":[
{"property":{"name":"x","value":"a"}},
{"property":{"name":"x","value":"b"}},
{"include":{"file":"db/b.json"}},
{"changeSet":{"id":"1","author":"ann","changes":[
 {"sql":{"sql":"INSERT INTO t VALUES ('${x}', '${y}', '${z}')"}}]}}]}"#,
);

const INCLUDED: FileText = (
    "db/b.json",
    r#"{"databaseChangeLog":[
{"property":{"name":"z","value":"c","global":false}},
{"changeSet":{"id":"${z}","author":"bob","changes":[
 {"createTable":{"tableName":"t","columns":[
  {"column":{"name":"a","type":"text"}},{"column":{"name":"b","type":"text"}},{"column":{"name":"c","type":"text"}}]}}]}}]}"#,
);

const REPLACED: [Step; 2] = [
    Step {
        words: "update-sql --url=postgresql:db --changelog-file=db/a.json",
        code: 0,
        out: "-- Changeset db/b.json::c::bob
CREATE TABLE \"t\" (\"a\" TEXT, \"b\" TEXT, \"c\" TEXT);
-- Changeset db/a.json::1::ann
INSERT INTO \"t\" VALUES ('a', '${y}', '${z}');
",
        log: "",
    },
    Step {
        words: "update-sql --url=postgresql:db --changelog-file=db/a.json -Dx=c",
        code: 0,
        out: "-- Changeset db/b.json::c::bob
CREATE TABLE \"t\" (\"a\" TEXT, \"b\" TEXT, \"c\" TEXT);
-- Changeset db/a.json::1::ann
INSERT INTO \"t\" VALUES ('c', '${y}', '${z}');
",
        log: "",
    },
];

#[test]
fn properties_are_put_in(rt: HostRuntime) {
    let files = [PROPERTIES, INCLUDED];
    let left = play(&rt, rt.alloc(), &files, b"", &REPLACED);
    assert!(rt; left.is_empty());
}

const CHOSEN: FileText = (
    "db/a.json",
    r#"{"databaseChangeLog":[
{"changeSet":{"id":"1","author":"ann","context":"!test and (dev or qa), prod","changes":[]}},
{"changeSet":{"id":"2","author":"ann","labels":"v1","changes":[]}},
{"changeSet":{"id":"3","author":"ann","dbms":"mysql","changes":[]}}]}"#,
);

const CHOICES: [Step; 4] = [
    Step {
        words: STATUS,
        code: 0,
        out: "pending: 2\ndb/a.json::1::ann\ndb/a.json::2::ann\n",
        log: "",
    },
    Step {
        words: "status --url=postgresql:db --changelog-file=db/a.json --context-filter=QA",
        code: 0,
        out: "pending: 2\ndb/a.json::1::ann\ndb/a.json::2::ann\n",
        log: "",
    },
    Step {
        words: "status --url=postgresql:db --changelog-file=db/a.json --context-filter=test",
        code: 0,
        out: "pending: 1\ndb/a.json::2::ann\n",
        log: "",
    },
    Step {
        words: "status --url=postgresql:db --changelog-file=db/a.json --label-filter=v2",
        code: 0,
        out: "pending: 1\ndb/a.json::1::ann\n",
        log: "",
    },
];

#[test]
fn changesets_are_selected(rt: HostRuntime) {
    let _left = play(&rt, rt.alloc(), &[CHOSEN], b"", &CHOICES);
}

const SQL: FileText = (
    "db/a.sql",
    "--liquibase formatted sql
--changeset ann:1
CREATE TABLE t (a TEXT);
--rollback DROP TABLE t;
--changeset ann:2
INSERT INTO t VALUES ('a;b--c''d'); DELETE FROM t
--rollback DELETE FROM t;
--rollback DELETE FROM t;
",
);

const SQL_STEPS: [Step; 3] = [
    Step {
        words: "update-sql --url=postgresql:db --changelog-file=db/a.sql",
        code: 0,
        out: "-- Changeset db/a.sql::1::ann
CREATE TABLE \"t\" (\"a\" TEXT);
-- Changeset db/a.sql::2::ann
INSERT INTO \"t\" VALUES ('a;b--c''d');
DELETE FROM \"t\";
",
        log: "",
    },
    Step {
        words: "update --url=postgresql:db --changelog-file=db/a.sql",
        code: 0,
        out: "ran db/a.sql::1::ann\nran db/a.sql::2::ann\nupdate: 2 ran, 0 ran again, 0 marked, 0 skipped, 0 not fresh\n",
        log: "",
    },
    Step {
        words: "rollback-sql --url=postgresql:db --changelog-file=db/a.sql --count=2",
        code: 0,
        out: "-- Rollback db/a.sql::2::ann
DELETE FROM \"t\";
DELETE FROM \"t\";
-- Rollback db/a.sql::1::ann
DROP TABLE \"t\";
",
        log: "",
    },
];

#[test]
fn formatted_sql_is_run(rt: HostRuntime) {
    let _left = play(&rt, rt.alloc(), &[SQL], b"", &SQL_STEPS);
}

const YAML: FileText = (
    "db/a.yaml",
    "databaseChangeLog:
- changeSet:
    id: 1
    author: ann
    changes: []
- changeSet:
    id: \"1\"
    author: ann
    changes: []
",
);

const TAB: FileText = ("db/b.yaml", "databaseChangeLog:\n- changeSet:\n\tid: 1\n");

const YAML_STEPS: [Step; 2] = [
    Step {
        words: "update --url=postgresql:db --changelog-file=db/a.yaml",
        code: 5,
        out: "",
        log: "liquibase: duplicate changeset db/a.yaml::1::ann\n",
    },
    Step {
        words: "update --url=postgresql:db --changelog-file=db/b.yaml",
        code: 4,
        out: "",
        log: "liquibase: changelog fault: db/b.yaml: line 3\n",
    },
];

#[test]
fn yaml_is_read(rt: HostRuntime) {
    let left = play(&rt, rt.alloc(), &[YAML, TAB], b"", &YAML_STEPS);
    assert!(rt; left.is_empty());
}

const LONG: FileText = (
    "db/a.json",
    r#"{"databaseChangeLog":[{"changeSet":{"id":"xxxxxxxxxxxxxxxxxxxxxxxxxxxxxxxxxxxxxxxxxxxxxxxxxxxxxxxxxxxxxxxxxxxxxxxxxxxxxxxxxxxxxxxxxxxxxxxxxxxxxxxxxxxxxxxxxxxxxxxxxxxxxxxxxxxxxxxxxxxxxxxxxxxxxxxxxxxxxxxxxxxxxxxxxxxxxxxxxxxxxxxxxxxxxxxxxxxxxxxxxxxxxxxxxxxxxxxxxxxxxxxxxxxxxxxxxxxxxxxxxxxxxxxxxxxxxxxx","author":"ann","changes":[]}}]}"#,
);

const LONGEST: FileText = (
    "db/a.json",
    r#"{"databaseChangeLog":[{"changeSet":{"id":"xxxxxxxxxxxxxxxxxxxxxxxxxxxxxxxxxxxxxxxxxxxxxxxxxxxxxxxxxxxxxxxxxxxxxxxxxxxxxxxxxxxxxxxxxxxxxxxxxxxxxxxxxxxxxxxxxxxxxxxxxxxxxxxxxxxxxxxxxxxxxxxxxxxxxxxxxxxxxxxxxxxxxxxxxxxxxxxxxxxxxxxxxxxxxxxxxxxxxxxxxxxxxxxxxxxxxxxxxxxxxxxxxxxxxxxxxxxxxxxxxxxxxxxxxxxxxxx","author":"ann","changes":[]}}]}"#,
);

const LONG_STEPS: [Step; 1] = [Step {
    words: UPDATE,
    code: 4,
    out: "",
    log: "liquibase: changelog fault: db/a.json: databaseChangeLog[0].changeSet.id: bad\n",
}];

#[test]
fn an_id_has_at_most_255_characters(rt: HostRuntime) {
    let left = play(&rt, rt.alloc(), &[LONG], b"", &LONG_STEPS);
    assert!(rt; left.is_empty());
    let ran = run_over(&rt, rt.alloc(), UPDATE, &[LONGEST], b"", NONE);
    assert_eq!(rt; ran.code, 0);
}

const UNKNOWN: FileText = ("db/a.json", r#"{"databaseChangeLog":[{"changeset":{}}]}"#);

const INCLUDED_TWICE: FileText = (
    "db/c.json",
    r#"{"databaseChangeLog":[{"include":{"file":"db/b.json"}},{"include":{"file":"db/b.json"}}]}"#,
);

const FAULTS: [Step; 4] = [
    Step {
        words: UPDATE,
        code: 4,
        out: "",
        log: "liquibase: changelog fault: db/a.json: databaseChangeLog[0].changeset: unknown\n",
    },
    Step {
        words: "update --url=postgresql:db --changelog-file=db/a.xml",
        code: 4,
        out: "",
        log: "liquibase: changelog fault: db/a.xml: XML is not read\n",
    },
    Step {
        words: "update --url=postgresql:db --changelog-file=db/n.json",
        code: 4,
        out: "",
        log: "liquibase: changelog fault: no file db/n.json\n",
    },
    Step {
        words: "update --url=postgresql:db --changelog-file=db/c.json",
        code: 5,
        out: "",
        log: "liquibase: duplicate changeset db/b.json::c::bob\n",
    },
];

#[test]
fn other_changelogs_are_refused(rt: HostRuntime) {
    let files = [UNKNOWN, INCLUDED_TWICE, INCLUDED];
    let left = play(&rt, rt.alloc(), &files, b"", &FAULTS);
    assert!(rt; left.is_empty());
}
