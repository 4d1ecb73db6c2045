use crate::shown::{shown, shown_behind};
use std::test::Fail;

#[test]
fn headers_are_missed(rt: HostRuntime) -> Result<(), Fail> {
    let cases = [
        "",
        "\n--liquibase formatted sql",
        "SELECT 1",
        "--liquibase formatted",
        "--liquibase formatted sqlite",
        "--liquibase formatted sql dbms:postgresql",
        "--liquibase formatted sql logicalFilePath",
        "--liquibase formatted sql logicalFilePath:a logicalfilepath:b",
        "--changeset bob:1\n--liquibase formatted sql",
    ];
    for text in cases {
        let read = shown(rt.alloc(), text.as_bytes())?;
        assert_eq!(rt; read.as_str(), "no header");
    }
    Ok(())
}

#[test]
fn bytes_are_no_text(rt: HostRuntime) -> Result<(), Fail> {
    let cases = [
        (b"--liquibase formatted sql\xff".as_slice(), "no header"),
        (b"--liquibase\n\xff".as_slice(), "no header"),
        (b"--liquibase formatted sql\n-- \xff".as_slice(), "line 2"),
        (
            b"--liquibase formatted sql\n--changeset a:1\n\xc3\nA".as_slice(),
            "line 3",
        ),
        (
            b"--liquibase formatted sql\n--changeset \xc3\xa9:1".as_slice(),
            "2 \u{e9}:1 comment[] body[];",
        ),
    ];
    for (bytes, want) in cases {
        let read = shown(rt.alloc(), bytes)?;
        assert_eq!(rt; read.as_str(), want);
    }
    Ok(())
}

#[test]
fn lines_before_a_changeset_are_told(rt: HostRuntime) -> Result<(), Fail> {
    let cases = [
        ("SELECT 1", "line 2"),
        ("\n-- a note\n -- a note", "line 4"),
        ("\r\n--comment x\r\n", "line 3"),
        ("--preconditions onFail:HALT", "line 2"),
        (
            "--precondition-sql-check expectedResult:0 SELECT 1",
            "line 2",
        ),
        ("--rollback empty", "line 2"),
        ("SELECT 1\nSELECT 2\n--changeset a:1", "line 2"),
    ];
    for (lines, want) in cases {
        let read = shown_behind(rt.alloc(), lines)?;
        assert_eq!(rt; read.as_str(), want);
    }
    Ok(())
}

#[test]
fn headings_are_told(rt: HostRuntime) -> Result<(), Fail> {
    let cases = [
        ("--changeset", "line 2"),
        ("--changeset bob", "line 2"),
        ("--changeset bob:1 dbms", "line 2"),
        ("--changeset bob:1 colour:red", "line 2"),
        ("--changeset bob:1 dbms:a DBMS:b", "line 2"),
        ("--changeset bob:1 dbms:\"a", "line 2"),
        ("--changeset bob:1 dbms:\"a\"b", "line 2"),
        (
            "--changeset bob:1\n--changeset bob 2:",
            "2 bob:1 comment[] body[];3 bob 2: comment[] body[];",
        ),
        ("--changeset bob:1\r\n\r\n--changeset bob\r\n", "line 4"),
    ];
    for (lines, want) in cases {
        let read = shown_behind(rt.alloc(), lines)?;
        assert_eq!(rt; read.as_str(), want);
    }
    Ok(())
}

#[test]
fn directives_are_told(rt: HostRuntime) -> Result<(), Fail> {
    let cases = [
        ("--changeset a:1\n--comment x\nA\n--comment: y", "line 5"),
        ("--changeset a:1\n--comment\n--comment", "line 4"),
        ("--changeset a:1\n--preconditions", "line 3"),
        ("--changeset a:1\n--preconditions onUpdate:RUN", "line 3"),
        (
            "--changeset a:1\n--preconditions onFail:a onfail:b",
            "line 3",
        ),
        (
            "--changeset a:1\n--preconditions onFail:a\n--preconditions onError:a",
            "line 4",
        ),
        (
            "--changeset a:1\n--precondition-sql-check SELECT 1",
            "line 3",
        ),
        (
            "--changeset a:1\n--precondition-sql-check result:0 SELECT 1",
            "line 3",
        ),
        (
            "--changeset a:1\nA\n -- Precondition-table-exists t",
            "line 4",
        ),
        ("--changeset a:1\n--preconditioned", "line 3"),
    ];
    for (lines, want) in cases {
        let read = shown_behind(rt.alloc(), lines)?;
        assert_eq!(rt; read.as_str(), want);
    }
    Ok(())
}
