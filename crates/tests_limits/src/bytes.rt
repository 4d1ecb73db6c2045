use crate::asked::told_bytes;
use std::alloc::Global;
use std::process::Abort;

/// A file's path and bytes, and what it is loaded as.
type Row<'a> = (&'a str, &'a [u8], &'a str);

fn tell_bytes(rt: &impl Abort, alloc: Global, rows: &[Row<'_>]) {
    for row in rows {
        let told = told_bytes(rt, alloc, row.0, row.1);
        assert_eq!(rt; told.as_str(), row.2);
    }
}

// JSON in another encoding is no JSON.
#[test]
fn bytes_of_json_that_are_no_text_are_told(rt: HostRuntime) {
    let rows: [Row<'_>; 8] = [
        (
            "a.json",
            b"{\"databaseChangeLog\":[{\"changeSet\":{\"id\":\"\xc3\xa9\",\"author\":\"\xf0\x9f\x98\x80\"}}]}",
            "\na.json::\u{e9}::\u{1f600}",
        ),
        (
            "a.json",
            b"{\"databaseChangeLog\":[]}\xff",
            "liquibase: changelog fault: a.json: not JSON\n",
        ),
        (
            "a.json",
            b"{\"databaseChangeLog\":[{\"changeSet\":{\"id\":\"\xe9\",\"author\":\"a\"}}]}",
            "liquibase: changelog fault: a.json: not JSON\n",
        ),
        (
            "a.json",
            b"{\"databaseChangeLog\":[{\"changeSet\":{\"id\":\"\xc0\x80\",\"author\":\"a\"}}]}",
            "liquibase: changelog fault: a.json: not JSON\n",
        ),
        (
            "a.json",
            b"{\"databaseChangeLog\":[{\"changeSet\":{\"id\":\"\xed\xa0\x80\",\"author\":\"a\"}}]}",
            "liquibase: changelog fault: a.json: not JSON\n",
        ),
        (
            "a.json",
            b"{\"\xc3\":1}",
            "liquibase: changelog fault: a.json: not JSON\n",
        ),
        (
            "a.json",
            b"\xff\xfe{\x00}\x00",
            "liquibase: changelog fault: a.json: not JSON\n",
        ),
        (
            "a.json",
            b"\xef\xbb\xbf{\"databaseChangeLog\":[]}",
            "liquibase: changelog fault: a.json: not JSON\n",
        ),
    ];
    tell_bytes(&rt, rt.alloc(), &rows)
}

// It is told before all lines and levels. A byte order mark is a character of the first line.
#[test]
fn bytes_of_yaml_that_are_no_text_are_told(rt: HostRuntime) {
    let rows: [Row<'_>; 9] = [
        (
            "a.yaml",
            b"databaseChangeLog:\n- changeSet:\n    id: \xc3\xa9\n    author: \xf0\x9f\x98\x80",
            "\na.yaml::\u{e9}::\u{1f600}",
        ),
        (
            "a.yaml",
            b"databaseChangeLog: []\n# \xff",
            "liquibase: changelog fault: a.yaml: not UTF-8\n",
        ),
        (
            "a.yml",
            b"databaseChangeLog: []\n\xc3",
            "liquibase: changelog fault: a.yml: not UTF-8\n",
        ),
        (
            "a.yaml",
            b"\ta: 1\nb: \xc0\x80",
            "liquibase: changelog fault: a.yaml: not UTF-8\n",
        ),
        (
            "a.yaml",
            b"\xf4\x90\x80\x80: 1",
            "liquibase: changelog fault: a.yaml: not UTF-8\n",
        ),
        (
            "a.yaml",
            b"\xef\xbb\xbfdatabaseChangeLog: []",
            "liquibase: changelog fault: a.yaml: \u{feff}databaseChangeLog: unknown\n",
        ),
        (
            "a.yaml",
            b"\xef\xbb\xbf---\ndatabaseChangeLog: []",
            "liquibase: changelog fault: a.yaml: line 1\n",
        ),
        (
            "a.yaml",
            b"",
            "liquibase: changelog fault: a.yaml: line 1\n",
        ),
        (
            "a.yaml",
            b"---\n# none\n",
            "liquibase: changelog fault: a.yaml: line 3\n",
        ),
    ];
    tell_bytes(&rt, rt.alloc(), &rows)
}

// Each line by itself is a text or none.
#[test]
fn bytes_of_sql_that_are_no_text_are_told(rt: HostRuntime) {
    let rows: [Row<'_>; 7] = [
        (
            "a.sql",
            b"--liquibase formatted sql\n--changeset \xf0\x9f\x98\x80:\xc3\xa9",
            "\na.sql::\u{e9}::\u{1f600}",
        ),
        (
            "a.sql",
            b"--liquibase formatted sql \xff",
            "liquibase: changelog fault: a.sql: no header\n",
        ),
        (
            "a.sql",
            b"\xef\xbb\xbf--liquibase formatted sql",
            "liquibase: changelog fault: a.sql: no header\n",
        ),
        (
            "a.sql",
            b"",
            "liquibase: changelog fault: a.sql: no header\n",
        ),
        (
            "a.sql",
            b"--liquibase formatted sql\n\n-- \xe9",
            "liquibase: changelog fault: a.sql: line 3\n",
        ),
        (
            "a.sql",
            b"--liquibase formatted sql\n--changeset ann:1\n--rollback \xed\xa0\x80",
            "liquibase: changelog fault: a.sql: line 3\n",
        ),
        (
            "a.sql",
            b"--liquibase formatted sql\nDELETE FROM t\n\xff",
            "liquibase: changelog fault: a.sql: line 2\n",
        ),
    ];
    tell_bytes(&rt, rt.alloc(), &rows)
}
