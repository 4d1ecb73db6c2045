use crate::tried::tried;
use lq_base::Dialect;
use std::alloc::Global;
use std::process::Abort;
use std::test::Fail;

const SETUP: &str =
    "CREATE TABLE t (n INT, CONSTRAINT k PRIMARY KEY (n));INSERT INTO t VALUES (1);CREATE TABLE app.t (n INT, m INT, CONSTRAINT k PRIMARY KEY (n), CONSTRAINT q UNIQUE (m));INSERT INTO app.t VALUES (1, 2);CREATE INDEX i ON app.t (m);CREATE SEQUENCE app.s START WITH 1 INCREMENT BY 1;CREATE VIEW app.v AS SELECT n FROM t";

fn assert_all<R: Abort>(
    rt: &R,
    alloc: Global,
    dialect: Dialect,
    setup: &str,
    rows: &[(&str, &str)],
) -> Result<(), Fail> {
    for (text, want) in rows {
        let told = tried(alloc, dialect, setup, text)?;
        assert_eq!(rt; told.as_str(), *want);
    }
    Ok(())
}

const TAKEN: [(&str, &str); 15] = [
    ("CREATE TABLE app.t (n INT)", "exists"),
    ("CREATE TABLE app.i (n INT)", "exists"),
    ("CREATE TABLE app.k (n INT)", "exists"),
    ("CREATE TABLE app.q (n INT)", "exists"),
    ("CREATE TABLE app.s (n INT)", "exists"),
    ("CREATE TABLE public.t (n INT)", "exists"),
    (
        "CREATE TABLE app.u (n INT, CONSTRAINT i PRIMARY KEY (n))",
        "exists",
    ),
    (
        "CREATE TABLE app.u (n INT, CONSTRAINT u UNIQUE (n))",
        "exists",
    ),
    ("CREATE INDEX i ON app.t (n)", "exists"),
    ("CREATE INDEX k ON app.t (m)", "exists"),
    ("CREATE INDEX t ON app.t (m)", "exists"),
    ("CREATE VIEW app.q AS SELECT n FROM t", "exists"),
    (
        "CREATE SEQUENCE app.i START WITH 1 INCREMENT BY 1",
        "exists",
    ),
    ("ALTER TABLE app.t RENAME TO i", "exists"),
    ("ALTER SEQUENCE app.s RENAME TO t", "exists"),
];

#[test]
fn names_are_taken_in_their_schema(rt: HostRuntime) -> Result<(), Fail> {
    assert_all(&rt, rt.alloc(), Dialect::Postgresql, SETUP, &TAKEN)
}

const FREE: [(&str, &str); 7] = [
    (
        "CREATE TABLE u (n INT, CONSTRAINT i PRIMARY KEY (n))",
        "0 = t(n int!) key k(n) [1]; u(n int!) key i(n) ; app.t(n int!, m int) key k(n) unique q(m) index i(m) [1 2]; app.v = [1]; app.s; ",
    ),
    (
        "CREATE INDEX i ON t (n)",
        "0 = t(n int!) key k(n) index i(n) [1]; app.t(n int!, m int) key k(n) unique q(m) index i(m) [1 2]; app.v = [1]; app.s; ",
    ),
    (
        "ALTER TABLE t ADD CONSTRAINT q UNIQUE (n)",
        "0 = t(n int!) key k(n) unique q(n) [1]; app.t(n int!, m int) key k(n) unique q(m) index i(m) [1 2]; app.v = [1]; app.s; ",
    ),
    (
        "CREATE SEQUENCE s START WITH 1 INCREMENT BY 1",
        "0 = t(n int!) key k(n) [1]; s; app.t(n int!, m int) key k(n) unique q(m) index i(m) [1 2]; app.v = [1]; app.s; ",
    ),
    (
        "CREATE VIEW v AS SELECT m FROM app.t",
        "0 = t(n int!) key k(n) [1]; v = [2]; app.t(n int!, m int) key k(n) unique q(m) index i(m) [1 2]; app.v = [1]; app.s; ",
    ),
    (
        "CREATE TABLE \"PUBLIC\".t (n INT, CONSTRAINT k PRIMARY KEY (n))",
        "0 = t(n int!) key k(n) [1]; app.t(n int!, m int) key k(n) unique q(m) index i(m) [1 2]; app.v = [1]; app.s; ",
    ),
    (
        "CREATE TABLE app.u (n INT, CONSTRAINT f FOREIGN KEY (n) REFERENCES t (n))",
        "0 = t(n int!) key k(n) [1]; app.t(n int!, m int) key k(n) unique q(m) index i(m) [1 2]; app.u(n int) foreign f(n)>t(n) ; app.v = [1]; app.s; ",
    ),
];

#[test]
fn names_are_free_in_another_schema(rt: HostRuntime) -> Result<(), Fail> {
    assert_all(&rt, rt.alloc(), Dialect::Postgresql, SETUP, &FREE)
}

const CHANGED: [(&str, &str); 9] = [
    ("DROP INDEX i", "missing"),
    ("DROP INDEX public.i", "missing"),
    (
        "DROP INDEX app.i",
        "0 = t(n int!) key k(n) [1]; app.t(n int!, m int) key k(n) unique q(m) [1 2]; app.v = [1]; app.s; ",
    ),
    (
        "ALTER TABLE app.t RENAME TO u",
        "0 = t(n int!) key k(n) [1]; app.u(n int!, m int) key k(n) unique q(m) index i(m) [1 2]; app.v = [1]; app.s; ",
    ),
    (
        "ALTER VIEW app.v RENAME TO w",
        "0 = t(n int!) key k(n) [1]; app.t(n int!, m int) key k(n) unique q(m) index i(m) [1 2]; app.w = [1]; app.s; ",
    ),
    (
        "ALTER TABLE app.t ADD CONSTRAINT f FOREIGN KEY (n) REFERENCES t (n)",
        "0 = t(n int!) key k(n) [1]; app.t(n int!, m int) key k(n) unique q(m) foreign f(n)>t(n) index i(m) [1 2]; app.v = [1]; app.s; ",
    ),
    (
        "ALTER TABLE public . t ADD CONSTRAINT f FOREIGN KEY (n) REFERENCES App.T (n)",
        "0 = t(n int!) key k(n) foreign f(n)>app.t(n) [1]; app.t(n int!, m int) key k(n) unique q(m) index i(m) [1 2]; app.v = [1]; app.s; ",
    ),
    (
        "drop table App /* its schema */ . -- and its text\n T",
        "0 = t(n int!) key k(n) [1]; app.v = [1]; app.s; ",
    ),
    ("DROP TABLE \"App\".t", "missing"),
];

#[test]
fn objects_are_changed_in_their_schema(rt: HostRuntime) -> Result<(), Fail> {
    assert_all(&rt, rt.alloc(), Dialect::Postgresql, SETUP, &CHANGED)
}

const TRACKING: [(&str, &str); 6] = [
    (
        "CREATE TABLE app.databasechangelog (n INT)",
        "0 = t(n int!) key k(n) [1]; app.t(n int!, m int) key k(n) unique q(m) index i(m) [1 2]; app.v = [1]; app.s; ",
    ),
    ("CREATE TABLE public.DATABASECHANGELOG (n INT)", "reserved"),
    ("CREATE INDEX databasechangelog ON app.t (m)", "reserved"),
    ("DROP INDEX app.databasechangelog", "missing"),
    (
        "CREATE INDEX \"pk_DATABASECHANGELOGLOCK\" ON app.t (n)",
        "0 = t(n int!) key k(n) [1]; app.t(n int!, m int) key k(n) unique q(m) index i(m) index pk_DATABASECHANGELOGLOCK(n) [1 2]; app.v = [1]; app.s; ",
    ),
    (
        "CREATE INDEX \"pk_DATABASECHANGELOGLOCK\" ON t (n)",
        "exists",
    ),
];

#[test]
fn the_tracking_tables_are_those_of_public(rt: HostRuntime) -> Result<(), Fail> {
    assert_all(&rt, rt.alloc(), Dialect::Postgresql, SETUP, &TRACKING)
}

const NO_SQL: [(&str, &str); 7] = [
    ("DROP TABLE a.b.c", "not sql"),
    ("DROP TABLE app.", "not sql"),
    ("DROP TABLE .t", "not sql"),
    ("DROP TABLE app.1", "not sql"),
    ("CREATE INDEX app.j ON t (n)", "not sql"),
    ("ALTER TABLE app.t RENAME TO app.u", "not sql"),
    ("ALTER TABLE t ADD COLUMN app.c INT", "not sql"),
];

#[test]
fn schemas_stand_only_before_objects(rt: HostRuntime) -> Result<(), Fail> {
    assert_all(&rt, rt.alloc(), Dialect::Postgresql, SETUP, &NO_SQL)
}

const MYSQL: [(&str, &str); 3] = [
    ("DROP TABLE public.t", "not sql"),
    ("CREATE TABLE app.u (n INT)", "not sql"),
    ("CREATE VIEW v AS SELECT n FROM app.t", "not sql"),
];

#[test]
fn mysql_has_no_schemas(rt: HostRuntime) -> Result<(), Fail> {
    assert_all(
        &rt,
        rt.alloc(),
        Dialect::Mysql,
        "CREATE TABLE t (n INT)",
        &MYSQL,
    )
}
