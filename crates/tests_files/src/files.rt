use crate::shown::{shown, shown_behind};
use std::test::Fail;

#[test]
fn headers_are_read(rt: HostRuntime) -> Result<(), Fail> {
    let cases = [
        ("--liquibase formatted sql", ""),
        ("--liquibase formatted sql\r\n\r\n-- a note\r\n \t\r\n", ""),
        (
            "--liquibase formatted sql logicalFilePath:db/a.sql",
            " path[db/a.sql]",
        ),
        (
            " \t--  LiquiBase\tFormatted  SQL LOGICALFILEPATH:\"a b.sql\" \r\n",
            " path[a b.sql]",
        ),
        ("--liquibase formatted sql logicalFilePath:", " path[]"),
    ];
    for (text, want) in cases {
        let read = shown(rt.alloc(), text.as_bytes())?;
        assert_eq!(rt; read.as_str(), want);
    }
    Ok(())
}

#[test]
fn changesets_are_read(rt: HostRuntime) -> Result<(), Fail> {
    let cases = [
        ("--changeset bob:1", "2 bob:1 comment[] body[];"),
        (
            "-- a note\n\n--changeset bob:1\nA\n\n--changeset bob:2\nB",
            "4 bob:1 comment[] body[A];7 bob:2 comment[] body[B];",
        ),
        (
            " -- ChangeSet Bob Ro:a-1\tDBMS:  CONTEXT:\"a and b\" \n",
            "2 Bob Ro:a-1 dbms[] context[a and b] comment[] body[];",
        ),
        ("--changeset :\n", "2 : comment[] body[];"),
        (
            "--changeset a:b:c labels:x:y\n",
            "2 a:b:c labels[x:y] comment[] body[];",
        ),
        (
            "--changeset a:1 contextFilter:c labels:l runAlways:true runOnChange:false failOnError:x\n",
            "2 a:1 contextFilter[c] labels[l] runAlways[true] runOnChange[false] failOnError[x] comment[] body[];",
        ),
        (
            "--changeset a:1 runInTransaction:false logicalFilePath:p ignore:true\n",
            "2 a:1 runInTransaction[false] logicalFilePath[p] ignore[true] comment[] body[];",
        ),
        (
            "--changeset a:1 splitStatements:false enddelimiter:// stripcomments:true\n",
            "2 a:1 splitStatements[false] endDelimiter[//] stripComments[true] comment[] body[];",
        ),
    ];
    for (lines, want) in cases {
        let read = shown_behind(rt.alloc(), lines)?;
        assert_eq!(rt; read.as_str(), want);
    }
    Ok(())
}

#[test]
fn directives_are_read(rt: HostRuntime) -> Result<(), Fail> {
    let cases = [
        (
            "--changeset a:1\n--comment  first one \nA",
            "2 a:1 comment[first one ] body[A];",
        ),
        (
            "--changeset a:1\r\n--Comment: first\r\nA\r\n",
            "2 a:1 comment[first] body[A];",
        ),
        (
            "--changeset a:1\n--preconditions ONERROR:WARN onFail:\"MARK_RAN\"\n",
            "2 a:1 comment[] onFail[MARK_RAN] onError[WARN] body[];",
        ),
        (
            "--changeset a:1\n--preconditions onFail:HALT\n",
            "2 a:1 comment[] onFail[HALT] body[];",
        ),
        (
            "--changeset a:1\n--precondition-sql-check expectedResult:0 SELECT COUNT(*) FROM t\n-- precondition-sql-check expectedResult:\"a b\"  SELECT c FROM t\n",
            "2 a:1 comment[] 0[SELECT COUNT(*) FROM t] a b[SELECT c FROM t] body[];",
        ),
        (
            "--changeset a:1\nA\n--rollback empty\n",
            "2 a:1 comment[] body[A] rollback[empty];",
        ),
        (
            "--changeset a:1\n--ROLLBACK not required\nA\n",
            "2 a:1 comment[] body[A] rollback[not required];",
        ),
        (
            "--changeset a:1\n--rollback\n--rollback  DROP TABLE t \n",
            "2 a:1 comment[] body[] rollback[\nDROP TABLE t ];",
        ),
    ];
    for (lines, want) in cases {
        let read = shown_behind(rt.alloc(), lines)?;
        assert_eq!(rt; read.as_str(), want);
    }
    Ok(())
}

#[test]
fn bodies_are_read(rt: HostRuntime) -> Result<(), Fail> {
    let cases = [
        (
            "--changeset bob:1\nINSERT INTO t VALUES ('a;b--c''d'); DELETE FROM t\n--rollback DELETE FROM t;\n--rollback DELETE FROM u\n",
            "2 bob:1 comment[] body[INSERT INTO t VALUES ('a;b--c''d'); DELETE FROM t] rollback[DELETE FROM t;\nDELETE FROM u];",
        ),
        (
            "--changeset a:1\n\nA\n \n  B -- kept\n--C\n--changesets a:2\n -- kept\n\n\t\n",
            "2 a:1 comment[] body[\nA\n \n  B -- kept\n -- kept];",
        ),
        (
            "--changeset a:1\r\nA\r\n\r\nB\rC\r\n\r\n",
            "2 a:1 comment[] body[A\n\nB\rC];",
        ),
        (
            "--changeset a:1\nA\n--comment:x\n--liquibase formatted sql\nB\n",
            "2 a:1 comment[] body[A\nB];",
        ),
        ("--changeset a:1\n\n\n", "2 a:1 comment[] body[];"),
    ];
    for (lines, want) in cases {
        let read = shown_behind(rt.alloc(), lines)?;
        assert_eq!(rt; read.as_str(), want);
    }
    Ok(())
}
