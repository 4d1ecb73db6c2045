use crate::running::{FileText, Step, play};
use crate::shop::{UPDATE, UPDATE_MYSQL};

// A table of one text in a schema, and in `public`.
const TWICE: FileText = (
    "db/a.json",
    r#"{"databaseChangeLog":[
{"changeSet":{"id":"1","author":"ann","changes":[
 {"createTable":{"tableName":"t","schemaName":"app","columns":[
  {"column":{"name":"id","type":"int"}}]}}]}},
{"changeSet":{"id":"2","author":"ann","changes":[
 {"createTable":{"tableName":"t","columns":[
  {"column":{"name":"id","type":"int"}}]}}]}}]}"#,
);

const BACK_TWO: &str = "rollback-count --url=postgresql:db --changelog-file=db/a.json --count=2";

const PRINTED: &str = "update-sql --url=postgresql:db --changelog-file=db/a.json";

const PRINTED_BACK: &str = "rollback-sql --url=postgresql:db --changelog-file=db/a.json --count=1";

const TWO_RAN: &str =
    "ran db/a.json::1::ann\nran db/a.json::2::ann\nupdate: 2 ran, 0 ran again, 0 marked, 0 skipped, 0 not fresh\n";

const TWO_BACK: &str =
    "rolled back db/a.json::2::ann\nrolled back db/a.json::1::ann\nrollback: 2 rolled back\n";

const THERE_AND_BACK: [Step; 4] = [
    Step {
        words: PRINTED,
        code: 0,
        out: "-- Changeset db/a.json::1::ann
CREATE TABLE \"app\".\"t\" (\"id\" INTEGER);
-- Changeset db/a.json::2::ann
CREATE TABLE \"t\" (\"id\" INTEGER);
",
        log: "",
    },
    Step {
        words: UPDATE,
        code: 0,
        out: TWO_RAN,
        log: "",
    },
    Step {
        words: BACK_TWO,
        code: 0,
        out: TWO_BACK,
        log: "",
    },
    Step {
        words: UPDATE,
        code: 0,
        out: TWO_RAN,
        log: "",
    },
];

#[test]
fn one_text_in_two_schemas(rt: HostRuntime) {
    let _left = play(&rt, rt.alloc(), &[TWICE], b"", &THERE_AND_BACK);
}

const IN_MYSQL: [Step; 1] = [Step {
    words: UPDATE_MYSQL,
    code: 4,
    out: "",
    log: "liquibase: changelog fault: db/a.json: databaseChangeLog[0].changeSet.changes[0].createTable.schemaName: bad\n",
}];

#[test]
fn mysql_has_no_schemas(rt: HostRuntime) {
    let left = play(&rt, rt.alloc(), &[TWICE], b"", &IN_MYSQL);
    assert!(rt; left.is_empty());
}

// A table and its index, in a schema.
const INDEXED: FileText = (
    "db/a.json",
    r#"{"databaseChangeLog":[
{"changeSet":{"id":"1","author":"ann","changes":[
 {"createTable":{"tableName":"t","schemaName":"app","columns":[
  {"column":{"name":"id","type":"int"}}]}}]}},
{"changeSet":{"id":"2","author":"ann","changes":[
 {"createIndex":{"indexName":"ix","tableName":"t","schemaName":"app",
  "columns":[{"column":{"name":"id"}}]}}]}}]}"#,
);

const INDEX_BACK: [Step; 5] = [
    Step {
        words: UPDATE,
        code: 0,
        out: TWO_RAN,
        log: "",
    },
    Step {
        words: "generate-changelog --url=postgresql:db --author=ann",
        code: 0,
        out: "{\"databaseChangeLog\":[{\"changeSet\":{\"author\":\"ann\",\"changes\":[{\"createTable\":{\"columns\":[{\"column\":{\"name\":\"id\",\"type\":\"int\"}}],\"schemaName\":\"app\",\"tableName\":\"t\"}}],\"id\":\"2\"}},{\"changeSet\":{\"author\":\"ann\",\"changes\":[{\"createIndex\":{\"columns\":[{\"column\":{\"name\":\"id\"}}],\"indexName\":\"ix\",\"schemaName\":\"app\",\"tableName\":\"t\"}}],\"id\":\"3\"}}]}\n",
        log: "",
    },
    Step {
        words: PRINTED_BACK,
        code: 0,
        out: "-- Rollback db/a.json::2::ann\nDROP INDEX \"app\".\"ix\";\n",
        log: "",
    },
    Step {
        words: BACK_TWO,
        code: 0,
        out: TWO_BACK,
        log: "",
    },
    Step {
        words: UPDATE,
        code: 0,
        out: TWO_RAN,
        log: "",
    },
];

#[test]
fn an_index_is_dropped_in_its_schema(rt: HostRuntime) {
    let _left = play(&rt, rt.alloc(), &[INDEXED], b"", &INDEX_BACK);
}

// One table name in three schemas, each with its key, its index and a foreign key across schemas.
const THREE: FileText = (
    "db/a.json",
    r#"{"databaseChangeLog":[
{"changeSet":{"id":"1","author":"ann","changes":[
 {"createTable":{"tableName":"t","columns":[
  {"column":{"name":"id","type":"int","constraints":{"primaryKey":true,"primaryKeyName":"k"}}}]}},
 {"createTable":{"tableName":"t","schemaName":"app","columns":[
  {"column":{"name":"id","type":"int","constraints":{"primaryKey":true,"primaryKeyName":"k"}}}]}},
 {"createTable":{"tableName":"t","schemaName":"log","columns":[
  {"column":{"name":"id","type":"int","constraints":{"primaryKey":true,"primaryKeyName":"k"}}}]}},
 {"addForeignKeyConstraint":{"constraintName":"f","baseTableName":"t","baseTableSchemaName":"log",
  "baseColumnNames":"id","referencedTableName":"t","referencedTableSchemaName":"app",
  "referencedColumnNames":"id"}}]}},
{"changeSet":{"id":"2","author":"ann","changes":[
 {"renameTable":{"oldTableName":"t","newTableName":"u","schemaName":"log"}},
 {"sql":{"sql":"INSERT INTO app.t VALUES (1); INSERT INTO log . /* c */ u VALUES (1)"}},
 {"sql":{"sql":"CREATE VIEW \"log\".v AS SELECT id FROM log . /* c */ u"}}],
 "rollback":["DROP VIEW log.v","DELETE FROM log.u","DELETE FROM app.t","ALTER TABLE log.u RENAME TO t"]}}]}"#,
);

const THREE_THERE_AND_BACK: [Step; 5] = [
    Step {
        words: PRINTED,
        code: 0,
        out: "-- Changeset db/a.json::1::ann
CREATE TABLE \"t\" (\"id\" INTEGER NOT NULL, CONSTRAINT \"k\" PRIMARY KEY (\"id\"));
CREATE TABLE \"app\".\"t\" (\"id\" INTEGER NOT NULL, CONSTRAINT \"k\" PRIMARY KEY (\"id\"));
CREATE TABLE \"log\".\"t\" (\"id\" INTEGER NOT NULL, CONSTRAINT \"k\" PRIMARY KEY (\"id\"));
ALTER TABLE \"log\".\"t\" ADD CONSTRAINT \"f\" FOREIGN KEY (\"id\") REFERENCES \"app\".\"t\" (\"id\");
-- Changeset db/a.json::2::ann
ALTER TABLE \"log\".\"t\" RENAME TO \"u\";
INSERT INTO \"app\".\"t\" VALUES (1);
INSERT INTO \"log\".\"u\" VALUES (1);
CREATE VIEW \"log\".\"v\" AS SELECT \"id\" FROM \"log\".\"u\";
",
        log: "",
    },
    Step {
        words: UPDATE,
        code: 0,
        out: TWO_RAN,
        log: "",
    },
    Step {
        words: "generate-changelog --url=postgresql:db --author=ann",
        code: 19,
        out: "",
        log: "liquibase: cannot write log.v\n",
    },
    Step {
        words: BACK_TWO,
        code: 0,
        out: TWO_BACK,
        log: "",
    },
    Step {
        words: UPDATE,
        code: 0,
        out: TWO_RAN,
        log: "",
    },
];

#[test]
fn three_schemas_with_one_name(rt: HostRuntime) {
    let _left = play(&rt, rt.alloc(), &[THREE], b"", &THREE_THERE_AND_BACK);
}
