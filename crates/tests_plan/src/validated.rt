use crate::asked::plan;
use crate::shown::Case;

#[test]
fn what_is_as_it_was_has_no_fault(rt: HostRuntime) {
    let cases = [
        Case {
            sets: "[]",
            rows: "",
            wanted: "",
        },
        Case {
            sets: "[]",
            rows: "1 ann db/a.json EXECUTED P2:d751713988987e9331980363e24189ce null 1 1",
            wanted: "",
        },
        Case {
            sets: r#"[{"id":1,"author":"ann"}]"#,
            rows: "1 ann db/a.json EXECUTED P2:d751713988987e9331980363e24189ce null 1 1",
            wanted: "",
        },
        Case {
            sets: r#"[{"id":1,"author":"ann"}]"#,
            rows: "1 ann db/a.json RERAN P2:d751713988987e9331980363e24189ce null 1 1",
            wanted: "",
        },
        Case {
            sets: r#"[{"id":1,"author":"ann"}]"#,
            rows: "1 ann db/a.json MARK_RAN P2:d751713988987e9331980363e24189ce null 1 1",
            wanted: "",
        },
        Case {
            sets: r#"[{"id":1,"author":"ann","changes":[{"tagDatabase":{"tag":"v1"}}]}]"#,
            rows: "1 ann db/a.json EXECUTED P2:ac6ae18b8492646a7cf6c43a0b8d425e null 1 1",
            wanted: "",
        },
    ];
    plan(&rt, rt.alloc(), &cases)
}

#[test]
fn what_was_edited_has_a_fault(rt: HostRuntime) {
    let cases = [
        Case {
            sets: r#"[{"id":1,"author":"ann"}]"#,
            rows: "1 ann db/a.json EXECUTED P2:0 null 1 1",
            wanted: "\nchanged db/a.json::1::ann from P2:0 to P2:d751713988987e9331980363e24189ce",
        },
        Case {
            sets: r#"[{"id":1,"author":"ann"}]"#,
            rows: "1 ann db/a.json MARK_RAN P2:0 null 1 1",
            wanted: "\nchanged db/a.json::1::ann from P2:0 to P2:d751713988987e9331980363e24189ce",
        },
        Case {
            sets: r#"[{"id":1,"author":"ann","changes":[{"tagDatabase":{"tag":"v1"}}]}]"#,
            rows: "1 ann db/a.json EXECUTED P2:d751713988987e9331980363e24189ce null 1 1",
            wanted: "\nchanged db/a.json::1::ann from P2:d751713988987e9331980363e24189ce to P2:ac6ae18b8492646a7cf6c43a0b8d425e",
        },
        Case {
            sets: r#"[{"id":1,"author":"ann","context":"prod"}]"#,
            rows: "1 ann db/a.json EXECUTED P2:0 null 1 1",
            wanted: "\nchanged db/a.json::1::ann from P2:0 to P2:d751713988987e9331980363e24189ce",
        },
        Case {
            sets: r#"[{"id":1,"author":"ann","validCheckSum":"P2:1"}]"#,
            rows: "1 ann db/a.json EXECUTED P2:0 null 1 1",
            wanted: "\nchanged db/a.json::1::ann from P2:0 to P2:d751713988987e9331980363e24189ce",
        },
        Case {
            sets: r#"[{"id":1,"author":"ann","validCheckSum":["P2:1","P2:00"]}]"#,
            rows: "1 ann db/a.json EXECUTED P2:0 null 1 1",
            wanted: "\nchanged db/a.json::1::ann from P2:0 to P2:d751713988987e9331980363e24189ce",
        },
        Case {
            sets: r#"[{"id":1,"author":"ann","validCheckSum":"any"}]"#,
            rows: "1 ann db/a.json EXECUTED P2:0 null 1 1",
            wanted: "\nchanged db/a.json::1::ann from P2:0 to P2:d751713988987e9331980363e24189ce",
        },
        Case {
            sets: r#"[{"id":1,"author":"ann","validCheckSum":"P2:d751713988987e9331980363e24189ce"}]"#,
            rows: "1 ann db/a.json EXECUTED P2:0 null 1 1",
            wanted: "\nchanged db/a.json::1::ann from P2:0 to P2:d751713988987e9331980363e24189ce",
        },
        Case {
            sets: r#"[{"id":1,"author":"ann","runAlways":true}]"#,
            rows: "1 ann db/a.json EXECUTED P2:0 null 1 1",
            wanted: "\nchanged db/a.json::1::ann from P2:0 to P2:d751713988987e9331980363e24189ce\n0 again\npending db/a.json::1::ann",
        },
    ];
    plan(&rt, rt.alloc(), &cases)
}

// The checksum is excused, null, or that of a changeset that runs on a change or is for another
// dialect.
#[test]
fn what_was_edited_may_have_no_fault(rt: HostRuntime) {
    let cases = [
        Case {
            sets: r#"[{"id":1,"author":"ann","validCheckSum":"P2:0"}]"#,
            rows: "1 ann db/a.json EXECUTED P2:0 null 1 1",
            wanted: "",
        },
        Case {
            sets: r#"[{"id":1,"author":"ann","validCheckSum":["P2:1","P2:0"]}]"#,
            rows: "1 ann db/a.json EXECUTED P2:0 null 1 1",
            wanted: "",
        },
        Case {
            sets: r#"[{"id":1,"author":"ann","validCheckSum":"ANY"}]"#,
            rows: "1 ann db/a.json EXECUTED P2:0 null 1 1",
            wanted: "",
        },
        Case {
            sets: r#"[{"id":1,"author":"ann","validCheckSum":["P2:1","ANY"]}]"#,
            rows: "1 ann db/a.json EXECUTED P2:0 null 1 1",
            wanted: "",
        },
        Case {
            sets: r#"[{"id":1,"author":"ann"}]"#,
            rows: "1 ann db/a.json EXECUTED null null 1 1",
            wanted: "\n0 fill",
        },
        Case {
            sets: r#"[{"id":1,"author":"ann","runOnChange":true}]"#,
            rows: "1 ann db/a.json EXECUTED P2:0 null 1 1",
            wanted: "\n0 again\npending db/a.json::1::ann",
        },
        Case {
            sets: r#"[{"id":1,"author":"ann","dbms":"mysql"}]"#,
            rows: "1 ann db/a.json EXECUTED P2:0 null 1 1",
            wanted: "",
        },
        Case {
            sets: r#"[{"id":1,"author":"ann","dbms":"!postgresql"}]"#,
            rows: "1 ann db/a.json EXECUTED P2:0 null 1 1",
            wanted: "",
        },
    ];
    plan(&rt, rt.alloc(), &cases)
}

#[test]
fn an_identity_stands_once(rt: HostRuntime) {
    let cases = [
        Case {
            sets: r#"[{"id":1,"author":"ann"},{"id":1,"author":"ann"}]"#,
            rows: "1 ann db/a.json EXECUTED P2:d751713988987e9331980363e24189ce null 1 1",
            wanted: "\ntwice db/a.json::1::ann",
        },
        Case {
            sets: r#"[{"id":1,"author":"ann"},{"id":"1","author":"ann"},{"id":1,"author":"ann","runAlways":false}]"#,
            rows: "1 ann db/a.json EXECUTED P2:d751713988987e9331980363e24189ce null 1 1",
            wanted: "\ntwice db/a.json::1::ann\ntwice db/a.json::1::ann",
        },
        Case {
            sets: r#"[{"id":1,"author":"ann"},{"id":1,"author":"ann"}]"#,
            rows: "",
            wanted: "\ntwice db/a.json::1::ann\n0 new\n1 new\npending db/a.json::1::ann\npending db/a.json::1::ann",
        },
        Case {
            sets: r#"[{"id":1,"author":"ann"},{"id":1,"author":"bob"},{"id":2,"author":"ann"},{"id":1,"author":"ann","logicalFilePath":"db/b.json"}]"#,
            rows: "1 ann db/a.json EXECUTED P2:d751713988987e9331980363e24189ce null 1 1\n1 bob db/a.json EXECUTED P2:d751713988987e9331980363e24189ce null 1 2\n2 ann db/a.json EXECUTED P2:d751713988987e9331980363e24189ce null 1 3\n1 ann db/b.json EXECUTED P2:d751713988987e9331980363e24189ce null 1 4",
            wanted: "",
        },
        Case {
            sets: r#"[{"id":1,"author":"ann"},{"id":1,"author":"ann","dbms":"mysql"}]"#,
            rows: "1 ann db/a.json EXECUTED P2:d751713988987e9331980363e24189ce null 1 1",
            wanted: "",
        },
        Case {
            sets: r#"[{"id":1,"author":"ann","dbms":"mysql"},{"id":1,"author":"ann"}]"#,
            rows: "1 ann db/a.json EXECUTED P2:d751713988987e9331980363e24189ce null 1 1",
            wanted: "",
        },
        Case {
            sets: r#"[{"id":1,"author":"ann","dbms":"mysql"},{"id":1,"author":"ann"},{"id":1,"author":"ann"}]"#,
            rows: "1 ann db/a.json EXECUTED P2:d751713988987e9331980363e24189ce null 1 1",
            wanted: "\ntwice db/a.json::1::ann",
        },
        Case {
            sets: r#"[{"id":1,"author":"ann","logicalFilePath":"db/b.json"},{"id":1,"author":"ann","logicalFilePath":"db/b.json"}]"#,
            rows: "1 ann db/b.json EXECUTED P2:d751713988987e9331980363e24189ce null 1 1",
            wanted: "\ntwice db/b.json::1::ann",
        },
    ];
    plan(&rt, rt.alloc(), &cases)
}

// Of a changeset the twin is told first.
#[test]
fn faults_follow_the_changelog(rt: HostRuntime) {
    let cases = [
        Case {
            sets: r#"[{"id":2,"author":"ann"},{"id":1,"author":"ann"}]"#,
            rows: "1 ann db/a.json EXECUTED P2:0 null 1 1\n2 ann db/a.json EXECUTED P2:2 null 1 2",
            wanted: "\nchanged db/a.json::2::ann from P2:2 to P2:d751713988987e9331980363e24189ce\nchanged db/a.json::1::ann from P2:0 to P2:d751713988987e9331980363e24189ce",
        },
        Case {
            sets: r#"[{"id":1,"author":"ann"},{"id":1,"author":"ann"}]"#,
            rows: "1 ann db/a.json EXECUTED P2:0 null 1 1",
            wanted: "\nchanged db/a.json::1::ann from P2:0 to P2:d751713988987e9331980363e24189ce\ntwice db/a.json::1::ann\nchanged db/a.json::1::ann from P2:0 to P2:d751713988987e9331980363e24189ce",
        },
        Case {
            sets: r#"[{"id":1,"author":"ann"},{"id":2,"author":"ann"},{"id":3,"author":"ann"}]"#,
            rows: "1 ann db/a.json EXECUTED P2:0 null 1 1\n2 ann db/a.json EXECUTED P2:d751713988987e9331980363e24189ce null 1 2\n3 ann db/a.json EXECUTED P2:3 null 1 3",
            wanted: "\nchanged db/a.json::1::ann from P2:0 to P2:d751713988987e9331980363e24189ce\nchanged db/a.json::3::ann from P2:3 to P2:d751713988987e9331980363e24189ce",
        },
    ];
    plan(&rt, rt.alloc(), &cases)
}

// Of several rows of a changeset the first counts.
#[test]
fn rows_have_twins(rt: HostRuntime) {
    let cases = [
        Case {
            sets: r#"[{"id":1,"author":"ann"}]"#,
            rows: "1 ann db/a.json EXECUTED P2:d751713988987e9331980363e24189ce null 1 1\n1 ann db/a.json EXECUTED P2:0 null 1 2",
            wanted: "",
        },
        Case {
            sets: r#"[{"id":1,"author":"ann"}]"#,
            rows: "1 ann db/a.json EXECUTED P2:0 null 1 1\n1 ann db/a.json EXECUTED P2:d751713988987e9331980363e24189ce null 1 2",
            wanted: "\nchanged db/a.json::1::ann from P2:0 to P2:d751713988987e9331980363e24189ce",
        },
        Case {
            sets: r#"[{"id":1,"author":"ann"}]"#,
            rows: "1 ann db/a.json EXECUTED null null 1 1\n1 ann db/a.json EXECUTED P2:0 null 1 2",
            wanted: "\n0 fill",
        },
    ];
    plan(&rt, rt.alloc(), &cases)
}
