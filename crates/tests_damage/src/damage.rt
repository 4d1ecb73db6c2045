use lq_base::Dialect;
use lq_outside::MemDisk;
use std::alloc::{AllocError, Global};
use std::process::Abort;
use std::test::Fail;
use tests_play::acted;

const LOG: &str =
    r#"CREATE TABLE "DATABASECHANGELOG" ("ID" VARCHAR(255) NOT NULL, "AUTHOR" VARCHAR(255) NOT NULL, "FILENAME" VARCHAR(255) NOT NULL, "DATEEXECUTED" TIMESTAMP NOT NULL, "ORDEREXECUTED" INTEGER NOT NULL, "EXECTYPE" VARCHAR(10) NOT NULL, "MD5SUM" VARCHAR(35), "DESCRIPTION" VARCHAR(255), "COMMENTS" VARCHAR(255), "TAG" VARCHAR(255), "LIQUIBASE" VARCHAR(20), "CONTEXTS" VARCHAR(255), "LABELS" VARCHAR(255), "DEPLOYMENT_ID" VARCHAR(10))"#;

const LOCK: &str =
    r#"CREATE TABLE "DATABASECHANGELOGLOCK" ("ID" INTEGER NOT NULL, "LOCKED" BOOLEAN NOT NULL, "LOCKGRANTED" TIMESTAMP, "LOCKEDBY" TEXT, CONSTRAINT "pk_DATABASECHANGELOGLOCK" PRIMARY KEY ("ID"))"#;

fn spelled(text: &str) -> &str {
    match text {
        "log" => LOG,
        "lock" => LOCK,
        _ => text,
    }
}

// A length in four bytes, the greatest first.
fn push_length(out: &mut Vec<u8>, length: usize) -> Result<(), AllocError> {
    let bytes = (length as u64).to_be_bytes();
    out.extend_from_slice(&bytes[4..])
}

// How many bytes of 0 a state has: 48 are that of the database without objects, fewer are none.
fn zeros(entry: &str) -> Option<usize> {
    match entry {
        "empty state" => Some(48),
        "bad state" => Some(47),
        _ => None,
    }
}

fn push_texts(body: &mut Vec<u8>, texts: &str) -> Result<(), AllocError> {
    body.push(b'T')?;
    for text in texts.split(';') {
        let text = spelled(text);
        push_length(body, text.len())?;
        body.extend_from_slice(text.as_bytes())?;
    }
    Ok(())
}

fn push_state(alloc: Global, body: &mut Vec<u8>, size: usize) -> Result<(), AllocError> {
    body.push(b'S')?;
    let bytes = vec![in alloc; 0u8; size]?;
    body.extend_from_slice(&bytes)
}

// An entry of texts with `;` between, or of a state, without its gate.
fn push_entry(alloc: Global, out: &mut Vec<u8>, entry: &str) -> Result<(), AllocError> {
    let mut body = Vec::new(alloc);
    match zeros(entry) {
        Some(size) => push_state(alloc, &mut body, size)?,
        None => push_texts(&mut body, entry)?,
    }
    push_length(out, body.len())?;
    out.extend_from_slice(body.as_slice())
}

/// A journal of entries with `/` between, and the bytes from its last gate on.
pub fn journal(
    alloc: Global,
    head: &[u8],
    entries: &str,
    end: &[u8],
) -> Result<Vec<u8>, AllocError> {
    let mut out = Vec::from_slice(alloc, head)?;
    for entry in entries.split('/') {
        out.push(1)?;
        push_entry(alloc, &mut out, entry)?;
    }
    out.extend_from_slice(end)?;
    Ok(out)
}

fn assert_loaded<R: Abort>(
    rt: &R,
    alloc: Global,
    dialect: Dialect,
    bytes: Vec<u8>,
    want: &str,
) -> Result<(), Fail> {
    let disk = MemDisk::new(bytes, Vec::new(alloc));
    let (_, told) = acted(alloc, disk, dialect, 8192, "1 rows: t")?;
    assert_eq!(rt; told.as_str(), want);
    Ok(())
}

#[test]
fn a_wrong_file_is_damaged(rt: HostRuntime) -> Result<(), Fail> {
    for (byte, len, want) in [
        (b'x', 17, "no table"),
        (b'x', 18, "damaged at 0"),
        (b'x', 40, "damaged at 0"),
        (b'x', 8192, "damaged at 0"),
        (b'x', 8193, "damaged at 8192"),
    ] {
        let bytes = vec![in rt.alloc(); byte; len]?;
        assert_loaded(&rt, rt.alloc(), Dialect::Postgresql, bytes, want)?;
    }
    Ok(())
}

#[test]
fn a_wrong_entry_is_damaged(rt: HostRuntime) -> Result<(), Fail> {
    let rows: [(&str, &[u8], &str); 12] = [
        ("CREATE TABLE t (n INT)", b"\x00", "0 rows"),
        ("CREATE TABLE t (n INT)", b"\x02rest", "0 rows"),
        ("CREATE TABLE t (n INT)", b"", "damaged at 17"),
        (
            "CREATE TABLE t (n INT)",
            b"\x01\x00\x00\x00\x01T\x00",
            "damaged at 49",
        ),
        (
            "CREATE TABLE t (n INT)",
            b"\x01\x00\x00\x00\x06S\x00\x00\x00\x01x\x00",
            "damaged at 49",
        ),
        (
            "CREATE TABLE t (n INT)",
            b"\x01\x00\x00\x00\x06T\x00\x00\x00\x01\xff\x00",
            "damaged at 49",
        ),
        ("SELEC", b"\x00", "damaged at 17"),
        (
            "CREATE TABLE t (n INT)/INSERT INTO t VALUES (1);SELEC",
            b"\x00",
            "damaged at 49",
        ),
        (
            "CREATE TABLE t (n INT)/CREATE TABLE t (n INT)",
            b"\x00",
            "damaged at 49",
        ),
        // The form of the entries counts before their texts.
        ("SELEC", b"\x01\x00\x00\x00\x01T\x00", "damaged at 32"),
        // Their texts count before the tracking tables.
        (
            r#"CREATE TABLE "DATABASECHANGELOG" (n INT)/SELEC"#,
            b"\x00",
            "damaged at 67",
        ),
        (
            r#"CREATE TABLE "DATABASECHANGELOG" (n INT)"#,
            b"\x00",
            "damaged at 67",
        ),
    ];
    for (entries, end, want) in rows {
        let bytes = journal(rt.alloc(), b"LQJOURNAL1 PGSQL", entries, end)?;
        assert_loaded(&rt, rt.alloc(), Dialect::Postgresql, bytes, want)?;
    }
    Ok(())
}

// What stands before the last state is passed over but for its form, and that state's place is its own.
const WITH_STATES: [(&str, &str); 13] = [
    (r#"CREATE TABLE "t" ("id" INTEGER)/empty state"#, "no table"),
    ("x/empty state", "no table"),
    ("bad state/empty state", "no table"),
    ("bad state/empty state/CREATE TABLE t (n INT)", "0 rows"),
    ("empty state/empty state", "no table"),
    (
        "CREATE TABLE t (n INT)/empty state/CREATE TABLE t (n INT)",
        "0 rows",
    ),
    ("CREATE TABLE t (n INT)/bad state", "damaged at 49"),
    ("empty state/bad state", "damaged at 71"),
    (
        "empty state/bad state/CREATE TABLE t (n INT)",
        "damaged at 71",
    ),
    ("empty state/SELEC", "damaged at 71"),
    ("SELEC/empty state/SELEC", "damaged at 86"),
    (
        "empty state/CREATE TABLE databasechangelog (n INT)",
        "damaged at 119",
    ),
    // The bytes before the last state are in use too.
    (
        "x/empty state/CREATE TABLE databasechangelog (n INT)",
        "damaged at 130",
    ),
];

#[test]
fn a_journal_begins_with_its_last_state(rt: HostRuntime) -> Result<(), Fail> {
    for (entries, want) in WITH_STATES {
        let bytes = journal(rt.alloc(), b"LQJOURNAL1 PGSQL", entries, b"\x00")?;
        assert_loaded(&rt, rt.alloc(), Dialect::Postgresql, bytes, want)?;
    }
    Ok(())
}

// The form of an entry counts before a state that is none.
#[test]
fn a_wrong_entry_counts_before_a_state(rt: HostRuntime) -> Result<(), Fail> {
    let end = b"\x01\x00\x00\x00\x01T\x00";
    let bytes = journal(rt.alloc(), b"LQJOURNAL1 PGSQL", "bad state", end)?;
    assert_loaded(&rt, rt.alloc(), Dialect::Postgresql, bytes, "damaged at 70")
}

#[test]
fn wrong_tracking_tables_are_damage(rt: HostRuntime) -> Result<(), Fail> {
    for (entries, want) in [
        ("lock", "no table"),
        (
            r#"log;lock;INSERT INTO "DATABASECHANGELOGLOCK" VALUES (1, FALSE, NULL, NULL)"#,
            "no table",
        ),
        (
            r#"log;INSERT INTO "DATABASECHANGELOG" VALUES ('1', 'ann', 'f', '1970-01-01 00:00:01.000', 1, 'EXECUTED', NULL, '', '', NULL, 'profile-1', '', '', '0000001000');INSERT INTO "DATABASECHANGELOG" VALUES ('2', 'ann', 'f', '1970-01-01 00:00:01.000', 2, 'RERAN', NULL, '', '', NULL, 'profile-1', '', '', '0000001000')"#,
            "no table",
        ),
        // An identity twice, an order twice, an order below 1, and a field that is not readable.
        (
            r#"log;INSERT INTO "DATABASECHANGELOG" VALUES ('1', 'ann', 'f', '1970-01-01 00:00:01.000', 1, 'EXECUTED', NULL, '', '', NULL, 'profile-1', '', '', '0000001000');INSERT INTO "DATABASECHANGELOG" VALUES ('1', 'ann', 'f', '1970-01-01 00:00:01.000', 2, 'EXECUTED', NULL, '', '', NULL, 'profile-1', '', '', '0000001000')"#,
            "damaged at 767",
        ),
        (
            r#"log;INSERT INTO "DATABASECHANGELOG" VALUES ('1', 'ann', 'f', '1970-01-01 00:00:01.000', 1, 'EXECUTED', NULL, '', '', NULL, 'profile-1', '', '', '0000001000');INSERT INTO "DATABASECHANGELOG" VALUES ('2', 'ann', 'f', '1970-01-01 00:00:01.000', 1, 'EXECUTED', NULL, '', '', NULL, 'profile-1', '', '', '0000001000')"#,
            "damaged at 767",
        ),
        (
            r#"log;INSERT INTO "DATABASECHANGELOG" VALUES ('1', 'ann', 'f', '1970-01-01 00:00:01.000', 0, 'EXECUTED', NULL, '', '', NULL, 'profile-1', '', '', '0000001000')"#,
            "damaged at 610",
        ),
        (
            r#"log;INSERT INTO "DATABASECHANGELOG" VALUES ('1', 'ann', 'f', '1970-01-01 00:00:01.000', 1, 'DONE', NULL, '', '', NULL, 'profile-1', '', '', '0000001000')"#,
            "damaged at 606",
        ),
        (
            r#"lock;INSERT INTO "DATABASECHANGELOGLOCK" VALUES (2, FALSE, NULL, NULL)"#,
            "damaged at 283",
        ),
        // What else has their names or names them.
        ("CREATE TABLE databasechangelog (n INT)", "damaged at 65"),
        (
            r#"CREATE TABLE t (n INT);CREATE INDEX "DatabaseChangeLog" ON t (n)"#,
            "damaged at 94",
        ),
        (
            r#"log;CREATE VIEW v AS SELECT "ID" FROM "DATABASECHANGELOG""#,
            "damaged at 510",
        ),
        (
            r#"lock;CREATE TABLE u (n INT, CONSTRAINT f FOREIGN KEY (n) REFERENCES "DATABASECHANGELOGLOCK" ("ID"))"#,
            "damaged at 312",
        ),
        (
            r#"CREATE SEQUENCE "pk_DATABASECHANGELOGLOCK" START WITH 1 INCREMENT BY 1"#,
            "damaged at 97",
        ),
    ] {
        let bytes = journal(rt.alloc(), b"LQJOURNAL1 PGSQL", entries, b"\x00")?;
        assert_loaded(&rt, rt.alloc(), Dialect::Postgresql, bytes, want)?;
    }
    Ok(())
}

#[test]
fn damage_is_the_dialects(rt: HostRuntime) -> Result<(), Fail> {
    for (head, entries, want) in [
        (
            b"LQJOURNAL1 PGSQL",
            "CREATE TABLE t (n INT)",
            "damaged at 0",
        ),
        (b"LQJOURNAL1 MYSQL", "CREATE TABLE t (n INT)", "0 rows"),
        (
            b"LQJOURNAL1 MYSQL",
            "CREATE TABLE pk_DATABASECHANGELOGLOCK (n INT)",
            "no table",
        ),
        (
            b"LQJOURNAL1 MYSQL",
            "CREATE TABLE DatabaseChangeLog (n INT)",
            "damaged at 65",
        ),
    ] {
        let bytes = journal(rt.alloc(), head, entries, b"\x00")?;
        assert_loaded(&rt, rt.alloc(), Dialect::Mysql, bytes, want)?;
    }
    Ok(())
}
