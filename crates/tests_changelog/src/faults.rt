use crate::asked::{Case, tell};

#[test]
fn files_that_cannot_be_read_are_named(rt: HostRuntime) {
    let cases = [
        Case {
            files: &[("a.xml", "")],
            wanted: "liquibase: changelog fault: a.xml: XML is not read\n",
        },
        Case {
            files: &[("a.txt", "")],
            wanted: "liquibase: changelog fault: a.txt: unknown format\n",
        },
        Case {
            files: &[("", "")],
            wanted: "liquibase: changelog fault: : bad path\n",
        },
        Case {
            files: &[("a.json", "{")],
            wanted: "liquibase: changelog fault: a.json: not JSON\n",
        },
        Case {
            files: &[("a.json", "[1.5]")],
            wanted: "liquibase: changelog fault: a.json: float number\n",
        },
        Case {
            files: &[("a.yaml", "a: 1\n b: 2")],
            wanted: "liquibase: changelog fault: a.yaml: line 2\n",
        },
        Case {
            files: &[("a.sql", "SELECT 1")],
            wanted: "liquibase: changelog fault: a.sql: no header\n",
        },
        Case {
            files: &[("a.sql", "--liquibase formatted sql\nSELECT 1")],
            wanted: "liquibase: changelog fault: a.sql: line 2\n",
        },
    ];
    tell(&rt, rt.alloc(), &cases)
}

#[test]
fn keys_are_told_by_their_places(rt: HostRuntime) {
    let cases = [
        Case {
            files: &[("a.json", "[]")],
            wanted: "liquibase: changelog fault: a.json: : bad\n",
        },
        Case {
            files: &[("a.json", "{}")],
            wanted: "liquibase: changelog fault: a.json: databaseChangeLog: missing\n",
        },
        Case {
            files: &[("a.json", r#"{"b":1,"a":1}"#)],
            wanted: "liquibase: changelog fault: a.json: a: unknown\n",
        },
        Case {
            files: &[("a.json", r#"{"databaseChangeLog":[1]}"#)],
            wanted: "liquibase: changelog fault: a.json: databaseChangeLog[0]: bad\n",
        },
        Case {
            files: &[("a.json", r#"{"databaseChangeLog":[{"no":1}]}"#)],
            wanted: "liquibase: changelog fault: a.json: databaseChangeLog[0].no: unknown\n",
        },
        Case {
            files: &[(
                "a.json",
                r#"{"databaseChangeLog":[{"changeSet":{"id":1}}]}"#,
            )],
            wanted: "liquibase: changelog fault: a.json: databaseChangeLog[0].changeSet.author: missing\n",
        },
        Case {
            files: &[("a.json", r#"{"databaseChangeLog":[{"include":{}}]}"#)],
            wanted: "liquibase: changelog fault: a.json: databaseChangeLog[0].include.file: missing\n",
        },
        Case {
            files: &[(
                "a.json",
                r#"{"databaseChangeLog":[{"preConditions":[{"onFail":"CONTINUE"}]}]}"#,
            )],
            wanted: "liquibase: changelog fault: a.json: databaseChangeLog[0].preConditions[0].onFail: bad\n",
        },
        Case {
            files: &[(
                "a.json",
                r#"{"databaseChangeLog":[{"changeSet":{"id":1,"author":"a","logicalFilePath":""}}]}"#,
            )],
            wanted: "liquibase: changelog fault: a.json: bad path\n",
        },
        Case {
            files: &[(
                "a.json",
                r#"{"databaseChangeLog":[{"changeSet":{"id":1,"author":"a","changes":[{"tagDatabase":{"tag":"v"}},{"tagDatabase":{"tag":"w"}}]}}]}"#,
            )],
            wanted: "liquibase: changelog fault: a.json: databaseChangeLog[0].changeSet.changes[1].tagDatabase: bad\n",
        },
    ];
    tell(&rt, rt.alloc(), &cases)
}

// The log's line stays one, whatever keys and paths hold.
#[test]
fn control_characters_begin_no_line(rt: HostRuntime) {
    let cases = [
        Case {
            files: &[("a.json", r#"{"b\nliquibase: no":1}"#)],
            wanted: "liquibase: changelog fault: a.json: b_liquibase: no: unknown\n",
        },
        Case {
            files: &[(
                "a.json",
                r#"{"databaseChangeLog":[{"\u001f\u007f\u0080 é\r":1}]}"#,
            )],
            wanted: "liquibase: changelog fault: a.json: databaseChangeLog[0].__\u{80} é_: unknown\n",
        },
        Case {
            files: &[(
                "a.json",
                r#"{"databaseChangeLog":[{"include":{"file":"b\tc.json"}}]}"#,
            )],
            wanted: "liquibase: changelog fault: b_c.json: bad path\n",
        },
        Case {
            files: &[("a\nb.json", "{}")],
            wanted: "liquibase: changelog fault: a_b.json: bad path\n",
        },
        Case {
            files: &[("a.yaml", "\"b\\nc\": 1")],
            wanted: "liquibase: changelog fault: a.yaml: b_c: unknown\n",
        },
    ];
    tell(&rt, rt.alloc(), &cases)
}
