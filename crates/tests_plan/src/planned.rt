use crate::asked::{plan, plan_with};
use crate::shown::Case;

#[test]
fn what_has_no_row_is_new(rt: HostRuntime) {
    let cases = [
        Case {
            sets: r#"[{"id":1,"author":"ann"}]"#,
            rows: "",
            wanted: "\n0 new\npending db/a.json::1::ann",
        },
        Case {
            sets: r#"[{"id":1,"author":"ann","runAlways":true,"runOnChange":true,"validCheckSum":"ANY"}]"#,
            rows: "",
            wanted: "\n0 new\npending db/a.json::1::ann",
        },
        Case {
            sets: r#"[{"id":1,"author":"ann"}]"#,
            rows: "2 ann db/a.json EXECUTED P2:d751713988987e9331980363e24189ce null 1 1",
            wanted: "\n0 new\npending db/a.json::1::ann",
        },
        Case {
            sets: r#"[{"id":1,"author":"ann"}]"#,
            rows: "1 Ann db/a.json EXECUTED P2:d751713988987e9331980363e24189ce null 1 1",
            wanted: "\n0 new\npending db/a.json::1::ann",
        },
        Case {
            sets: r#"[{"id":1,"author":"ann"}]"#,
            rows: "1 ann db/b.json EXECUTED P2:d751713988987e9331980363e24189ce null 1 1",
            wanted: "\n0 new\npending db/a.json::1::ann",
        },
        Case {
            sets: r#"[{"id":1,"author":"ann","logicalFilePath":"db/b.json"}]"#,
            rows: "1 ann db/b.json EXECUTED P2:d751713988987e9331980363e24189ce null 1 1",
            wanted: "",
        },
        Case {
            sets: r#"[{"id":1,"author":"ann","dbms":"mysql"}]"#,
            rows: "",
            wanted: "",
        },
        Case {
            sets: r#"[{"id":1,"author":"ann","preConditions":[{"tableExists":{"tableName":"t"}}]}]"#,
            rows: "",
            wanted: "\n0 new\npending db/a.json::1::ann",
        },
    ];
    plan(&rt, rt.alloc(), &cases)
}

#[test]
fn what_has_a_row_runs_again(rt: HostRuntime) {
    let cases = [
        Case {
            sets: r#"[{"id":1,"author":"ann","runAlways":true}]"#,
            rows: "1 ann db/a.json EXECUTED P2:d751713988987e9331980363e24189ce null 1 1",
            wanted: "\n0 again\npending db/a.json::1::ann",
        },
        Case {
            sets: r#"[{"id":1,"author":"ann","runAlways":true}]"#,
            rows: "1 ann db/a.json MARK_RAN P2:d751713988987e9331980363e24189ce null 1 1",
            wanted: "\n0 again\npending db/a.json::1::ann",
        },
        Case {
            sets: r#"[{"id":1,"author":"ann","runAlways":true}]"#,
            rows: "1 ann db/a.json EXECUTED null null 1 1",
            wanted: "\n0 again\npending db/a.json::1::ann",
        },
        Case {
            sets: r#"[{"id":1,"author":"ann","runAlways":true,"validCheckSum":"ANY"}]"#,
            rows: "1 ann db/a.json EXECUTED P2:0 null 1 1",
            wanted: "\n0 again\npending db/a.json::1::ann",
        },
        Case {
            sets: r#"[{"id":1,"author":"ann","runOnChange":true}]"#,
            rows: "1 ann db/a.json EXECUTED P2:0 null 1 1",
            wanted: "\n0 again\npending db/a.json::1::ann",
        },
        Case {
            sets: r#"[{"id":1,"author":"ann","runOnChange":true,"validCheckSum":"P2:1"}]"#,
            rows: "1 ann db/a.json EXECUTED P2:0 null 1 1",
            wanted: "\n0 again\npending db/a.json::1::ann",
        },
        Case {
            sets: r#"[{"id":1,"author":"ann","runOnChange":true}]"#,
            rows: "1 ann db/a.json EXECUTED P2:d751713988987e9331980363e24189ce null 1 1",
            wanted: "",
        },
        Case {
            sets: r#"[{"id":1,"author":"ann","runOnChange":true,"validCheckSum":"P2:0"}]"#,
            rows: "1 ann db/a.json EXECUTED P2:0 null 1 1",
            wanted: "",
        },
        Case {
            sets: r#"[{"id":1,"author":"ann","runOnChange":true,"validCheckSum":"ANY"}]"#,
            rows: "1 ann db/a.json EXECUTED P2:0 null 1 1",
            wanted: "",
        },
    ];
    plan(&rt, rt.alloc(), &cases)
}

// A status does not list it.
#[test]
fn a_null_sum_is_filled_in(rt: HostRuntime) {
    let cases = [
        Case {
            sets: r#"[{"id":1,"author":"ann"}]"#,
            rows: "1 ann db/a.json EXECUTED null null 1 1",
            wanted: "\n0 fill",
        },
        Case {
            sets: r#"[{"id":1,"author":"ann"}]"#,
            rows: "1 ann db/a.json MARK_RAN null null 1 1",
            wanted: "\n0 fill",
        },
        Case {
            sets: r#"[{"id":1,"author":"ann","runOnChange":true}]"#,
            rows: "1 ann db/a.json EXECUTED null null 1 1",
            wanted: "\n0 fill",
        },
        Case {
            sets: r#"[{"id":1,"author":"ann","validCheckSum":"ANY"}]"#,
            rows: "1 ann db/a.json EXECUTED null null 1 1",
            wanted: "\n0 fill",
        },
    ];
    plan(&rt, rt.alloc(), &cases)
}

#[test]
fn turns_follow_the_changelog(rt: HostRuntime) {
    let cases = [Case {
        sets: r#"[{"id":1,"author":"ann"},{"id":2,"author":"ann"},{"id":3,"author":"ann","runAlways":true},{"id":4,"author":"ann"},{"id":5,"author":"ann","runOnChange":true},{"id":6,"author":"ann"}]"#,
        rows: "2 ann db/a.json EXECUTED P2:d751713988987e9331980363e24189ce null 1 1\n3 ann db/a.json EXECUTED P2:d751713988987e9331980363e24189ce null 1 2\n4 ann db/a.json EXECUTED null null 1 3\n5 ann db/a.json EXECUTED P2:0 null 1 4\n9 ann db/a.json EXECUTED P2:d751713988987e9331980363e24189ce null 1 5",
        wanted: "\n0 new\n2 again\n3 fill\n4 again\n5 new\npending db/a.json::1::ann\npending db/a.json::3::ann\npending db/a.json::5::ann\npending db/a.json::6::ann",
    }];
    plan(&rt, rt.alloc(), &cases)
}

// What is not selected has no turn, but has its faults.
#[test]
fn filters_pass_over_changesets(rt: HostRuntime) {
    let cases = [
        Case {
            sets: r#"[{"id":1,"author":"ann"},{"id":2,"author":"ann","context":"prod"},{"id":3,"author":"ann","context":"test"},{"id":4,"author":"ann","labels":"v1"},{"id":5,"author":"ann","labels":"v2"},{"id":6,"author":"ann","context":"test","runAlways":true},{"id":7,"author":"ann","labels":"v1"},{"id":8,"author":"ann","context":"!test"}]"#,
            rows: "6 ann db/a.json EXECUTED P2:d751713988987e9331980363e24189ce null 1 1\n7 ann db/a.json EXECUTED null null 1 2\n8 ann db/a.json EXECUTED P2:0 null 1 3",
            wanted: "\nchanged db/a.json::8::ann from P2:0 to P2:d751713988987e9331980363e24189ce\n0 new\n2 new\n4 new\n5 again\npending db/a.json::1::ann\npending db/a.json::3::ann\npending db/a.json::5::ann\npending db/a.json::6::ann",
        },
        Case {
            sets: r#"[{"id":1,"author":"ann","context":"prod"},{"id":1,"author":"ann","context":"prod"}]"#,
            rows: "",
            wanted: "\ntwice db/a.json::1::ann",
        },
    ];
    plan_with(&rt, rt.alloc(), ("test", "v2"), &cases)
}
