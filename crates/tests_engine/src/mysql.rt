use crate::tried::tried;
use lq_base::Dialect;
use std::alloc::Global;
use std::process::Abort;
use std::test::Fail;

fn assert_tried<R: Abort>(
    rt: &R,
    alloc: Global,
    setup: &str,
    text: &str,
    want: &str,
) -> Result<(), Fail> {
    let told = tried(alloc, Dialect::Mysql, setup, text)?;
    assert_eq!(rt; told.as_str(), want);
    Ok(())
}

#[test]
fn columns_are_modified(rt: HostRuntime) -> Result<(), Fail> {
    let setup =
        "CREATE TABLE t (n INT AUTO_INCREMENT, s VARCHAR(3) DEFAULT 'd', PRIMARY KEY (n));INSERT INTO t (s) VALUES ('a');INSERT INTO t VALUES (5, 'bcd');CREATE TABLE u (m INT, CONSTRAINT f FOREIGN KEY (m) REFERENCES t (n));INSERT INTO u VALUES (NULL)";
    for (text, want) in [
        // A stated number makes the next one at least one more.
        (
            "INSERT INTO t (s) VALUES (NULL)",
            "1 = t(n int!#, s varchar(3) = d) key PRIMARY(n) [1 a][5 bcd][6 null]; u(m int) foreign f(m)>t(n) [null]; ",
        ),
        (
            "ALTER TABLE t MODIFY s TEXT NOT NULL",
            "0 = t(n int!#, s text!) key PRIMARY(n) [1 a][5 bcd]; u(m int) foreign f(m)>t(n) [null]; ",
        ),
        (
            "ALTER TABLE t MODIFY n INT NOT NULL",
            "0 = t(n int!, s varchar(3) = d) key PRIMARY(n) [1 a][5 bcd]; u(m int) foreign f(m)>t(n) [null]; ",
        ),
        ("ALTER TABLE t MODIFY d TEXT NULL", "missing"),
        ("ALTER TABLE t MODIFY n INT NULL", "depends"),
        ("ALTER TABLE t MODIFY n BIGINT NOT NULL", "depends"),
        ("ALTER TABLE u MODIFY m BIGINT NULL", "depends"),
        ("ALTER TABLE t MODIFY s INT NULL", "wrong kind"),
        ("ALTER TABLE t MODIFY s VARCHAR(2) NULL", "too wide"),
        ("ALTER TABLE u MODIFY m INT NOT NULL", "null found"),
        (
            "ALTER TABLE databasechangelog MODIFY s INT NULL",
            "reserved",
        ),
        ("CREATE SEQUENCE s START WITH 1 INCREMENT BY 1", "not sql"),
    ] {
        assert_tried(&rt, rt.alloc(), setup, text, want)?;
    }
    Ok(())
}

#[test]
fn constraints_have_their_own_names(rt: HostRuntime) -> Result<(), Fail> {
    let setup =
        "CREATE TABLE t (n INT, s TEXT, PRIMARY KEY (n), CONSTRAINT q UNIQUE (s));CREATE TABLE u (m INT, PRIMARY KEY (m), CONSTRAINT f FOREIGN KEY (m) REFERENCES t (n));INSERT INTO t VALUES (1, 'a')";
    for (text, want) in [
        (
            "RENAME TABLE t TO w",
            "0 = u(m int!) key PRIMARY(m) foreign f(m)>w(n) ; w(n int!, s text) key PRIMARY(n) unique q(s) [1 a]; ",
        ),
        ("RENAME TABLE w TO v", "missing"),
        ("RENAME TABLE t TO u", "exists"),
        (
            "ALTER TABLE u DROP PRIMARY KEY",
            "0 = t(n int!, s text) key PRIMARY(n) unique q(s) [1 a]; u(m int!) foreign f(m)>t(n) ; ",
        ),
        ("ALTER TABLE t DROP PRIMARY KEY", "depends"),
        ("ALTER TABLE w DROP PRIMARY KEY", "missing"),
        ("ALTER TABLE t ADD PRIMARY KEY (s)", "exists"),
        ("ALTER TABLE databasechangelog DROP PRIMARY KEY", "reserved"),
        (
            "ALTER TABLE t DROP INDEX q",
            "0 = t(n int!, s text) key PRIMARY(n) [1 a]; u(m int!) key PRIMARY(m) foreign f(m)>t(n) ; ",
        ),
        ("ALTER TABLE t DROP INDEX i", "missing"),
        ("ALTER TABLE t DROP INDEX databasechangelog", "reserved"),
        (
            "ALTER TABLE u DROP FOREIGN KEY f",
            "0 = t(n int!, s text) key PRIMARY(n) unique q(s) [1 a]; u(m int!) key PRIMARY(m) ; ",
        ),
        ("ALTER TABLE t DROP FOREIGN KEY f", "missing"),
        (
            "ALTER TABLE u DROP FOREIGN KEY databasechangelog",
            "reserved",
        ),
        (
            "CREATE INDEX q ON u (m)",
            "0 = t(n int!, s text) key PRIMARY(n) unique q(s) [1 a]; u(m int!) key PRIMARY(m) foreign f(m)>t(n) index q(m) ; ",
        ),
        ("CREATE INDEX q ON t (s)", "exists"),
        ("DROP INDEX q ON t", "missing"),
        (
            "ALTER TABLE t ADD CONSTRAINT f FOREIGN KEY (n) REFERENCES t (n)",
            "exists",
        ),
        (
            "CREATE VIEW v AS SELECT s FROM t",
            "0 = t(n int!, s text) key PRIMARY(n) unique q(s) [1 a]; u(m int!) key PRIMARY(m) foreign f(m)>t(n) ; v = [a]; ",
        ),
        ("CREATE VIEW u AS SELECT s FROM t", "exists"),
        ("INSERT INTO u VALUES (2)", "no parent"),
    ] {
        assert_tried(&rt, rt.alloc(), setup, text, want)?;
    }
    Ok(())
}
