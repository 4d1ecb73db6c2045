use crate::running::{CI, FileText, NONE, Ran, Step, play, run_by, run_over};
use crate::shop::{ALL_RAN, SHOP, UPDATE, UPDATE_MYSQL};
use lq_base::{Items, Text};
use lq_outside::MemFiles;
use std::alloc::Global;
use std::process::Abort;
use std::str;

const GENERATE: &str = "generate-changelog --url=postgresql:db --author=ann";

const GENERATE_MYSQL: &str = "generate-changelog --url=mysql:db --author=ann";

const NOTHING: [Step; 1] = [Step {
    words: GENERATE,
    code: 0,
    out: "{\"databaseChangeLog\":[]}\n",
    log: "",
}];

#[test]
fn of_nothing_a_changelog_without_changesets_is_made(rt: HostRuntime) {
    let left = play(&rt, rt.alloc(), &[], b"", &NOTHING);
    assert!(rt; left.is_empty());
}

const ONE_TABLE: FileText = (
    "db/a.json",
    r#"{"databaseChangeLog":[{"changeSet":{"id":"1","author":"ann","changes":[
{"createTable":{"tableName":"t","columns":[{"column":{"name":"id","type":"int"}}]}}]}}]}"#,
);

const ONE_RAN: &str =
    "ran db/a.json::1::ann\nupdate: 1 ran, 0 ran again, 0 marked, 0 skipped, 0 not fresh\n";

const ONE_TABLE_TEXT: &str =
    "{\"databaseChangeLog\":[{\"changeSet\":{\"author\":\"ann\",\"changes\":[{\"createTable\":{\"columns\":[{\"column\":{\"name\":\"id\",\"type\":\"int\"}}],\"tableName\":\"t\"}}],\"id\":\"2\"}}]}\n";

const ONE: [Step; 2] = [
    Step {
        words: UPDATE,
        code: 0,
        out: ONE_RAN,
        log: "",
    },
    Step {
        words: GENERATE,
        code: 0,
        out: ONE_TABLE_TEXT,
        log: "",
    },
];

#[test]
fn a_table_is_told(rt: HostRuntime) {
    let _left = play(&rt, rt.alloc(), &[ONE_TABLE], b"", &ONE);
}

const SHOP_TEXT: &str =
    "{\"databaseChangeLog\":[{\"changeSet\":{\"author\":\"ann\",\"changes\":[{\"createTable\":{\"columns\":[{\"column\":{\"constraints\":{\"nullable\":false},\"name\":\"id\",\"type\":\"int\"}},{\"column\":{\"name\":\"team_id\",\"type\":\"int\"}}],\"tableName\":\"player\"}},{\"createTable\":{\"columns\":[{\"column\":{\"constraints\":{\"nullable\":false},\"name\":\"id\",\"type\":\"int\"}},{\"column\":{\"constraints\":{\"nullable\":false},\"name\":\"name\",\"type\":\"varchar(40)\"}}],\"tableName\":\"team\"}}],\"id\":\"2\"}},{\"changeSet\":{\"author\":\"ann\",\"changes\":[{\"addPrimaryKey\":{\"columnNames\":\"id\",\"constraintName\":\"pk_player\",\"tableName\":\"player\"}},{\"createIndex\":{\"columns\":[{\"column\":{\"name\":\"team_id\"}}],\"indexName\":\"ix_player_team\",\"tableName\":\"player\"}},{\"addPrimaryKey\":{\"columnNames\":\"id\",\"constraintName\":\"pk_team\",\"tableName\":\"team\"}}],\"id\":\"3\"}},{\"changeSet\":{\"author\":\"ann\",\"changes\":[{\"addForeignKeyConstraint\":{\"baseColumnNames\":\"team_id\",\"baseTableName\":\"player\",\"constraintName\":\"fk_player_team\",\"referencedColumnNames\":\"id\",\"referencedTableName\":\"team\"}}],\"id\":\"4\"}}]}\n";

const SHOP_TOLD: [Step; 2] = [
    Step {
        words: UPDATE,
        code: 0,
        out: ALL_RAN,
        log: "",
    },
    Step {
        words: GENERATE,
        code: 0,
        out: SHOP_TEXT,
        log: "",
    },
];

#[test]
fn keys_come_behind_tables_and_foreign_keys_behind_keys(rt: HostRuntime) {
    let _left = play(&rt, rt.alloc(), &[SHOP], b"", &SHOP_TOLD);
}

// A changelog, with the words that run it and those that generate one.
#[derive(Clone, Copy)]
struct Round {
    file: FileText,
    update: &'static str,
    generate: &'static str,
    again: &'static str,
}

const fn in_postgresql(file: FileText) -> Round {
    Round {
        file,
        update: UPDATE,
        generate: GENERATE,
        again: "update --url=postgresql:db --changelog-file=g.json",
    }
}

const fn in_mysql(file: FileText) -> Round {
    Round {
        file,
        update: UPDATE_MYSQL,
        generate: GENERATE_MYSQL,
        again: "update --url=mysql:db --changelog-file=g.json",
    }
}

// A file in memory of this text.
fn file_with(rt: &impl Abort, alloc: Global, path: &str, text: &[u8]) -> MemFiles {
    let path = Text::new(alloc, path).expect(rt, "memory");
    let bytes = Items::from_slice(alloc, text).expect(rt, "memory");
    let mut held = Items::new(alloc);
    held.push((path, bytes)).expect(rt, "memory");
    MemFiles::new(alloc, held, Vec::new(alloc))
}

fn generated(rt: &impl Abort, alloc: Global, round: Round, bytes: &[u8]) -> Ran {
    let ran = run_over(rt, alloc, round.generate, &[], bytes, NONE);
    assert!(rt;
        ran.code == 0,
        "{}",
        str::from_utf8(&ran.log).unwrap_or("no UTF-8")
    );
    assert!(rt; ran.bytes.as_slice() == bytes);
    ran
}

// What a round's file leaves.
fn updated(rt: &impl Abort, alloc: Global, round: Round) -> Ran {
    let ran = run_over(rt, alloc, round.update, &[round.file], b"", NONE);
    assert!(rt;
        ran.code == 0,
        "{}",
        str::from_utf8(&ran.log).unwrap_or("no UTF-8")
    );
    ran
}

// What a new database has of a generated changelog.
fn updated_again(rt: &impl Abort, alloc: Global, round: Round, text: &[u8]) -> Ran {
    let files = file_with(rt, alloc, "g.json", text);
    let ran = run_by(rt, alloc, CI, round.again, files, b"", NONE);
    assert!(rt;
        ran.code == 0,
        "{}",
        str::from_utf8(&ran.log).unwrap_or("no UTF-8")
    );
    ran
}

fn is_fresh(out: &[u8]) -> bool {
    let out = str::from_utf8(out).unwrap_or("no UTF-8");
    out.contains(" 0 skipped, 0 not fresh")
}

// What is generated of a database makes one of which the same is generated.
fn comes_again(rt: &impl Abort, alloc: Global, round: Round) {
    let made = updated(rt, alloc, round);
    let first = generated(rt, alloc, round, &made.bytes);
    let again = updated_again(rt, alloc, round, &first.out);
    assert!(rt; is_fresh(&again.out));
    let second = generated(rt, alloc, round, &again.bytes);
    assert!(rt; second.out.as_slice() == first.out.as_slice());
}

// Each kind of column, with and without a default; names and texts with quotes, blanks and signs.
const COLUMNS: FileText = (
    "db/a.json",
    r#"{"databaseChangeLog":[{"changeSet":{"id":"1","author":"ann","changes":[
{"createTable":{"tableName":"kinds \"q\", 'r' ${p}","columns":[
 {"column":{"name":"i","type":"int","defaultValueNumeric":-5}},
 {"column":{"name":"l","type":"bigint","defaultValueNumeric":9223372036854775807}},
 {"column":{"name":"b","type":"boolean","defaultValueBoolean":false}},
 {"column":{"name":"v","type":"varchar(20)","defaultValue":"it's \"x\" \\ \n ${p}","constraints":{"nullable":false}}},
 {"column":{"name":"e","type":"varchar(1)","defaultValue":""}},
 {"column":{"name":"x","type":"text","defaultValue":"long"}},
 {"column":{"name":"m","type":"timestamp","defaultValueDate":"2020-02-29 23:59:59.999"}},
 {"column":{"name":"d","type":"decimal(10, 2)","defaultValueNumeric":"-12.50"}},
 {"column":{"name":"w","type":"decimal(38, 0)","defaultValueNumeric":"5"}},
 {"column":{"name":"a,b","type":"int"}},
 {"column":{"name":" c ","type":"bigint"}},
 {"column":{"name":"f","type":"boolean"}},
 {"column":{"name":"g","type":"text"}},
 {"column":{"name":"h","type":"timestamp"}},
 {"column":{"name":"k","type":"decimal(38, 38)"}},
 {"column":{"name":"ä.ö","type":"varchar(10000)","defaultValue":"\u0001é"}}]}},
{"createIndex":{"indexName":"ix,1","tableName":"kinds \"q\", 'r' ${p}","columns":[
 {"column":{"name":"a,b"}},{"column":{"name":" c "}}]}}]}}]}"#,
);

// The text of the same, with each default by the key of its sort.
const COLUMNS_TEXT: &str =
    r#"{"databaseChangeLog":[{"changeSet":{"author":"ann","changes":[{"createTable":{"columns":[{"column":{"defaultValueNumeric":-5,"name":"i","type":"int"}},{"column":{"defaultValueNumeric":9223372036854775807,"name":"l","type":"bigint"}},{"column":{"defaultValueBoolean":false,"name":"b","type":"boolean"}},{"column":{"constraints":{"nullable":false},"defaultValue":"it's \"x\" \\ \n ${p}","name":"v","type":"varchar(20)"}},{"column":{"defaultValue":"","name":"e","type":"varchar(1)"}},{"column":{"defaultValue":"long","name":"x","type":"text"}},{"column":{"defaultValueDate":"2020-02-29 23:59:59.999","name":"m","type":"timestamp"}},{"column":{"defaultValueNumeric":"-12.50","name":"d","type":"decimal(10, 2)"}},{"column":{"defaultValueNumeric":"5","name":"w","type":"decimal(38, 0)"}},{"column":{"name":"a,b","type":"int"}},{"column":{"name":" c ","type":"bigint"}},{"column":{"name":"f","type":"boolean"}},{"column":{"name":"g","type":"text"}},{"column":{"name":"h","type":"timestamp"}},{"column":{"name":"k","type":"decimal(38, 38)"}},{"column":{"defaultValue":"\u0001é","name":"ä.ö","type":"varchar(10000)"}}],"tableName":"kinds \"q\", 'r' ${p}"}}],"id":"2"}},{"changeSet":{"author":"ann","changes":[{"createIndex":{"columns":[{"column":{"name":"a,b"}},{"column":{"name":" c "}}],"indexName":"ix,1","tableName":"kinds \"q\", 'r' ${p}"}}],"id":"3"}}]}
"#;

const COLUMNS_TOLD: [Step; 2] = [
    Step {
        words: UPDATE,
        code: 0,
        out: ONE_RAN,
        log: "",
    },
    Step {
        words: GENERATE,
        code: 0,
        out: COLUMNS_TEXT,
        log: "",
    },
];

const COLUMNS_TOLD_IN_MYSQL: [Step; 2] = [
    Step {
        words: UPDATE_MYSQL,
        code: 0,
        out: ONE_RAN,
        log: "",
    },
    Step {
        words: GENERATE_MYSQL,
        code: 0,
        out: COLUMNS_TEXT,
        log: "",
    },
];

#[test]
fn each_default_is_told(rt: HostRuntime) {
    let _left = play(&rt, rt.alloc(), &[COLUMNS], b"", &COLUMNS_TOLD);
}

#[test]
fn each_default_is_told_in_mysql(rt: HostRuntime) {
    let _left = play(&rt, rt.alloc(), &[COLUMNS], b"", &COLUMNS_TOLD_IN_MYSQL);
}

#[test]
fn columns_come_again(rt: HostRuntime) {
    comes_again(&rt, rt.alloc(), in_postgresql(COLUMNS));
}

#[test]
fn columns_come_again_in_mysql(rt: HostRuntime) {
    comes_again(&rt, rt.alloc(), in_mysql(COLUMNS));
}

// Numbered columns, keys, unique constraints, indexes, foreign keys in a circle and to themselves.
const KEYS: FileText = (
    "db/a.json",
    r#"{"databaseChangeLog":[{"changeSet":{"id":"1","author":"ann","changes":[
{"createTable":{"tableName":"a","columns":[
 {"column":{"name":"id","type":"bigint","autoIncrement":true,"constraints":{"primaryKey":true,"primaryKeyName":"the_key"}}},
 {"column":{"name":"b","type":"int"}},
 {"column":{"name":"up","type":"bigint"}}]}},
{"createTable":{"tableName":"b","columns":[
 {"column":{"name":"x","type":"int","constraints":{"nullable":false}}},
 {"column":{"name":"y","type":"int","constraints":{"nullable":false}}},
 {"column":{"name":"a","type":"bigint"}}]}},
{"addPrimaryKey":{"tableName":"b","columnNames":"x","constraintName":"b_key"}},
{"addUniqueConstraint":{"tableName":"b","columnNames":"y,x","constraintName":"uq1"}},
{"addUniqueConstraint":{"tableName":"b","columnNames":"a","constraintName":"uq2"}},
{"createIndex":{"indexName":"ix1","tableName":"b","columns":[{"column":{"name":"y"}}]}},
{"createIndex":{"indexName":"ix2","tableName":"a","unique":true,"columns":[{"column":{"name":"up"}},{"column":{"name":"b"}}]}},
{"addForeignKeyConstraint":{"constraintName":"fk1","baseTableName":"a","baseColumnNames":"b","referencedTableName":"b","referencedColumnNames":"x"}},
{"addForeignKeyConstraint":{"constraintName":"fk2","baseTableName":"b","baseColumnNames":"a","referencedTableName":"a","referencedColumnNames":"id","onDelete":"CASCADE"}},
{"addForeignKeyConstraint":{"constraintName":"fk3","baseTableName":"a","baseColumnNames":"up","referencedTableName":"a","referencedColumnNames":"id"}},
{"insert":{"tableName":"b","columns":[{"column":{"name":"x","valueNumeric":1}},{"column":{"name":"y","valueNumeric":2}}]}}]}}]}"#,
);

#[test]
fn keys_come_again(rt: HostRuntime) {
    comes_again(&rt, rt.alloc(), in_postgresql(KEYS));
}

#[test]
fn keys_come_again_in_mysql(rt: HostRuntime) {
    comes_again(&rt, rt.alloc(), in_mysql(KEYS));
}

#[test]
fn a_shop_comes_again(rt: HostRuntime) {
    comes_again(&rt, rt.alloc(), in_postgresql(SHOP));
}

#[test]
fn a_shop_comes_again_in_mysql(rt: HostRuntime) {
    comes_again(&rt, rt.alloc(), in_mysql(SHOP));
}

const VIEWS: FileText = (
    "db/a.json",
    r#"{"databaseChangeLog":[{"changeSet":{"id":"1","author":"ann","changes":[
{"createTable":{"tableName":"t","columns":[
 {"column":{"name":"id","type":"int"}},{"column":{"name":"s","type":"varchar(9)"}}]}},
{"createView":{"viewName":"all","selectQuery":"SELECT * FROM t"}},
{"createView":{"viewName":"some","selectQuery":"SELECT s FROM t WHERE (id > 1 AND s = 'it''s') OR id IS NULL"}}]}}]}"#,
);

#[test]
fn views_come_again(rt: HostRuntime) {
    comes_again(&rt, rt.alloc(), in_postgresql(VIEWS));
}

#[test]
fn views_come_again_in_mysql(rt: HostRuntime) {
    comes_again(&rt, rt.alloc(), in_mysql(VIEWS));
}

const SEQUENCES: FileText = (
    "db/a.json",
    r#"{"databaseChangeLog":[{"changeSet":{"id":"1","author":"ann","changes":[
{"createSequence":{"sequenceName":"s"}},
{"createSequence":{"sequenceName":"least","startValue":-9223372036854775808,"incrementBy":-7}},
{"createTable":{"tableName":"t","columns":[{"column":{"name":"id","type":"int"}}]}}]}}]}"#,
);

#[test]
fn sequences_come_again(rt: HostRuntime) {
    comes_again(&rt, rt.alloc(), in_postgresql(SEQUENCES));
}

// A statement, and where what it makes cannot be written.
type Unwritten = (&'static str, &'static str);

const UNWRITTEN: [Unwritten; 9] = [
    (
        "CREATE TABLE t (id INT, n INT DEFAULT NULL)",
        "liquibase: cannot write t.n\n",
    ),
    (
        "CREATE TABLE t (n DECIMAL(38, 38) DEFAULT 0)",
        "liquibase: cannot write t.n\n",
    ),
    (
        "CREATE TABLE t (\\\"a,b\\\" INT, PRIMARY KEY (\\\"a,b\\\"))",
        "liquibase: cannot write t.a,b\n",
    ),
    (
        "CREATE TABLE t (\\\" a\\\" INT, UNIQUE (\\\" a\\\"))",
        "liquibase: cannot write t. a\n",
    ),
    (
        "CREATE TABLE t (id INT PRIMARY KEY, \\\"a \\\" INT REFERENCES t (id))",
        "liquibase: cannot write t.a \n",
    ),
    (
        "CREATE TABLE t (\\\",\\\" INT GENERATED BY DEFAULT AS IDENTITY PRIMARY KEY)",
        "liquibase: cannot write t.,\n",
    ),
    (
        "CREATE SEQUENCE s START WITH 9223372036854775808 INCREMENT BY 1",
        "liquibase: cannot write s\n",
    ),
    (
        "CREATE TABLE a (n INT DEFAULT NULL); CREATE SEQUENCE z START WITH 1 INCREMENT BY -9223372036854775809",
        "liquibase: cannot write z\n",
    ),
    (
        "CREATE TABLE a (\\\"x,\\\" INT, UNIQUE (\\\"x,\\\")); CREATE TABLE b (n INT DEFAULT NULL)",
        "liquibase: cannot write b.n\n",
    ),
];

fn text_of(rt: &impl Abort, alloc: Global, statement: &str) -> Text {
    let mut text = Text::new(alloc, "").expect(rt, "memory");
    text.push_all(&[
        "{\"databaseChangeLog\":[{\"changeSet\":{\"id\":\"1\",\"author\":\"ann\",\"changes\":[{\"sql\":{\"sql\":\"",
        statement,
        "\"}}]}}]}",
    ])
    .expect(rt, "memory");
    text
}

fn is_told(rt: &impl Abort, alloc: Global, unwritten: Unwritten) -> bool {
    let text = text_of(rt, alloc, unwritten.0);
    let files = file_with(rt, alloc, "g.json", text.as_str().as_bytes());
    let words = "update --url=postgresql:db --changelog-file=g.json";
    let made = run_by(rt, alloc, CI, words, files, b"", NONE);
    let ran = run_over(rt, alloc, GENERATE, &[], &made.bytes, NONE);
    made.code == 0
        && ran.code == 19
        && ran.out.is_empty()
        && str::from_utf8(&ran.log).unwrap_or("no UTF-8") == unwritten.1
}

#[test]
fn what_cannot_be_written_is_told_at_its_place(rt: HostRuntime) {
    for unwritten in &UNWRITTEN {
        assert!(rt; is_told(&rt, rt.alloc(), *unwritten), "{}", unwritten.0);
    }
}

// Fifty control characters, of which a JSON text needs six bytes each.
const FIFTY: &str =
    "\x01\x01\x01\x01\x01\x01\x01\x01\x01\x01\x01\x01\x01\x01\x01\x01\x01\x01\x01\x01\x01\x01\x01\x01\x01\x01\x01\x01\x01\x01\x01\x01\x01\x01\x01\x01\x01\x01\x01\x01\x01\x01\x01\x01\x01\x01\x01\x01\x01\x01";

// With these a default of 55,923 times as many makes a text of 16,777,216 bytes.
const REST: &str =
    "xxxxxxxxxxxxxxxxxxxxxxxxxxxxxxxxxxxxxxxxxxxxxxxxxxxxxxxxxxxxxxxxxxxxxxxxxxxxxxxxxxxxxxxxxxxxxxxxxxxxxxxxxxxxxxxxxxxxxxxxxxxxxxxxxxxxxxxxxx";

// A file of formatted SQL with that default.
fn long_default(rt: &impl Abort, alloc: Global) -> Text {
    let mut text = Text::new(
        alloc,
        "--liquibase formatted sql\n--changeset ann:1\nCREATE TABLE t (x TEXT DEFAULT '",
    )
    .expect(rt, "memory");
    for _ in 0..55_923 {
        text.push_all(&[FIFTY]).expect(rt, "memory");
    }
    text.push_all(&[REST, "')\n"]).expect(rt, "memory");
    text
}

// A database with a table of that default.
fn long_table(rt: &impl Abort, alloc: Global) -> Ran {
    let text = long_default(rt, alloc);
    let files = file_with(rt, alloc, "g.sql", text.as_str().as_bytes());
    let words = "update --url=postgresql:db --changelog-file=g.sql";
    let made = run_by(rt, alloc, CI, words, files, b"", NONE);
    assert_eq!(rt; made.code, 0);
    made
}

// The author's name is one byte longer.
const ONE_LONGER: &str = "generate-changelog --url=postgresql:db --author=anna";

#[test]
fn a_changelog_has_at_most_16_mebibytes(rt: HostRuntime) {
    let made = long_table(&rt, rt.alloc());
    let fits = run_over(&rt, rt.alloc(), GENERATE, &[], &made.bytes, NONE);
    assert_eq!(rt; fits.code, 0);
    assert_eq!(rt; fits.out.len(), 16_777_216);
    let long = run_over(&rt, rt.alloc(), ONE_LONGER, &[], &made.bytes, NONE);
    assert_eq!(rt; long.code, 19);
    assert!(rt; long.out.is_empty());
    let log = str::from_utf8(&long.log).unwrap_or("no UTF-8");
    assert_eq!(rt; log, "liquibase: cannot write the changelog\n");
}

const USAGE: &str = "liquibase: usage: liquibase COMMAND --url=DIALECT:FILE [options]\n";

const WORDS: [Step; 3] = [
    Step {
        words: "generate-changelog --url=postgresql:db",
        code: 2,
        out: "",
        log: USAGE,
    },
    Step {
        words: "generate-changelog --url=postgresql:db --author=",
        code: 2,
        out: "",
        log: USAGE,
    },
    Step {
        words: "generate-changelog --url=postgresql:db --author=ann --changelog-file=db/a.json",
        code: 2,
        out: "",
        log: USAGE,
    },
];

#[test]
fn an_author_is_wanted(rt: HostRuntime) {
    let _left = play(&rt, rt.alloc(), &[], b"", &WORDS);
}
