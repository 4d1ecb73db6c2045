use crate::asked::reverse;
use crate::shown::Case;

#[test]
fn what_says_its_inverse_is_taken_back(rt: HostRuntime) {
    let cases = [
        Case {
            sets: r#"[{"id":1,"author":"ann","changes":[{"renameTable":{"oldTableName":"a","newTableName":"b"}}]}]"#,
            rows: "",
            wanted: "",
        },
        Case {
            sets: r#"[{"id":1,"author":"ann","changes":[{"renameTable":{"oldTableName":"a","newTableName":"b"}}]}]"#,
            rows: "1 ann db/a.json EXECUTED P2:d751713988987e9331980363e24189ce null 1 1",
            wanted: "\nby 0",
        },
        Case {
            sets: r#"[{"id":1,"author":"ann","changes":[{"renameTable":{"oldTableName":"a","newTableName":"b"}}]}]"#,
            rows: "1 ann db/a.json RERAN P2:d751713988987e9331980363e24189ce null 1 1",
            wanted: "\nby 0",
        },
        Case {
            sets: r#"[{"id":1,"author":"ann","changes":[{"renameTable":{"oldTableName":"a","newTableName":"b"}}]}]"#,
            rows: "1 ann db/a.json EXECUTED P2:0 null 1 1",
            wanted: "\nby 0",
        },
        Case {
            sets: r#"[{"id":1,"author":"ann","changes":[{"renameTable":{"oldTableName":"a","newTableName":"b"}}],"context":"prod","labels":"v1"}]"#,
            rows: "1 ann db/a.json EXECUTED P2:d751713988987e9331980363e24189ce null 1 1",
            wanted: "\nby 0",
        },
        Case {
            sets: r#"[{"id":1,"author":"ann","changes":[{"renameTable":{"oldTableName":"a","newTableName":"b"}}],"preConditions":[{"tableExists":{"tableName":"t"}}]}]"#,
            rows: "1 ann db/a.json EXECUTED P2:d751713988987e9331980363e24189ce null 1 1",
            wanted: "\nby 0",
        },
        Case {
            sets: r#"[{"id":1,"author":"ann"}]"#,
            rows: "1 ann db/a.json EXECUTED P2:d751713988987e9331980363e24189ce null 1 1",
            wanted: "\nby 0",
        },
        Case {
            sets: r#"[{"id":1,"author":"ann","changes":[{"tagDatabase":{"tag":"v1"}},{"empty":{}}]}]"#,
            rows: "1 ann db/a.json EXECUTED P2:d751713988987e9331980363e24189ce null 1 1",
            wanted: "\nby 0",
        },
        Case {
            sets: r#"[{"id":1,"author":"ann","changes":[{"renameTable":{"oldTableName":"a","newTableName":"b"}},{"renameTable":{"oldTableName":"a","newTableName":"b"}}]}]"#,
            rows: "1 ann db/a.json EXECUTED P2:d751713988987e9331980363e24189ce null 1 1",
            wanted: "\nby 0",
        },
        Case {
            sets: r#"[{"id":1,"author":"ann","changes":[{"delete":{"tableName":"b"}}],"rollback":[{"renameTable":{"oldTableName":"a","newTableName":"b"}}]}]"#,
            rows: "1 ann db/a.json EXECUTED P2:d751713988987e9331980363e24189ce null 1 1",
            wanted: "\nby 0",
        },
        Case {
            sets: r#"[{"id":1,"author":"ann","changes":[{"delete":{"tableName":"b"}}],"rollback":[{"delete":{"tableName":"b"}}]}]"#,
            rows: "1 ann db/a.json EXECUTED P2:d751713988987e9331980363e24189ce null 1 1",
            wanted: "\nby 0",
        },
        Case {
            sets: r#"[{"id":1,"author":"ann","changes":[{"delete":{"tableName":"b"}}],"rollback":""}]"#,
            rows: "1 ann db/a.json EXECUTED P2:d751713988987e9331980363e24189ce null 1 1",
            wanted: "\nby 0",
        },
        Case {
            sets: r#"[{"id":1,"author":"ann","changes":[{"delete":{"tableName":"b"}}],"rollback":[]}]"#,
            rows: "1 ann db/a.json EXECUTED P2:d751713988987e9331980363e24189ce null 1 1",
            wanted: "\nby 0",
        },
    ];
    reverse(&rt, rt.alloc(), &cases)
}

#[test]
fn what_says_no_inverse_is_not_taken_back(rt: HostRuntime) {
    let cases = [
        Case {
            sets: r#"[{"id":1,"author":"ann","changes":[{"delete":{"tableName":"b"}}]}]"#,
            rows: "1 ann db/a.json EXECUTED P2:d751713988987e9331980363e24189ce null 1 1",
            wanted: "\nnot db/a.json::1::ann",
        },
        Case {
            sets: r#"[{"id":1,"author":"ann","changes":[{"delete":{"tableName":"b"}}]}]"#,
            rows: "1 ann db/a.json RERAN P2:d751713988987e9331980363e24189ce null 1 1",
            wanted: "\nnot db/a.json::1::ann",
        },
        Case {
            sets: r#"[{"id":1,"author":"ann","changes":[{"insert":{"tableName":"t","columns":[{"name":"a","value":"x"}]}}]}]"#,
            rows: "1 ann db/a.json EXECUTED P2:d751713988987e9331980363e24189ce null 1 1",
            wanted: "\nnot db/a.json::1::ann",
        },
        Case {
            sets: r#"[{"id":1,"author":"ann","changes":[{"update":{"tableName":"t","columns":[{"name":"a","value":"x"}]}}]}]"#,
            rows: "1 ann db/a.json EXECUTED P2:d751713988987e9331980363e24189ce null 1 1",
            wanted: "\nnot db/a.json::1::ann",
        },
        Case {
            sets: r#"[{"id":1,"author":"ann","changes":[{"dropTable":{"tableName":"t"}}]}]"#,
            rows: "1 ann db/a.json EXECUTED P2:d751713988987e9331980363e24189ce null 1 1",
            wanted: "\nnot db/a.json::1::ann",
        },
        Case {
            sets: r#"[{"id":1,"author":"ann","changes":[{"sql":{"sql":"drop table t"}}]}]"#,
            rows: "1 ann db/a.json EXECUTED P2:d751713988987e9331980363e24189ce null 1 1",
            wanted: "\nnot db/a.json::1::ann",
        },
        Case {
            sets: r#"[{"id":1,"author":"ann","changes":[{"renameTable":{"oldTableName":"a","newTableName":"b"}},{"delete":{"tableName":"b"}}]}]"#,
            rows: "1 ann db/a.json EXECUTED P2:d751713988987e9331980363e24189ce null 1 1",
            wanted: "\nnot db/a.json::1::ann",
        },
        Case {
            sets: r#"[{"id":1,"author":"ann","changes":[{"delete":{"tableName":"b"}},{"renameTable":{"oldTableName":"a","newTableName":"b"}}]}]"#,
            rows: "1 ann db/a.json EXECUTED P2:d751713988987e9331980363e24189ce null 1 1",
            wanted: "\nnot db/a.json::1::ann",
        },
    ];
    reverse(&rt, rt.alloc(), &cases)
}

#[test]
fn a_row_without_its_changeset_is_not_taken_back(rt: HostRuntime) {
    let cases = [
        Case {
            sets: "[]",
            rows: "1 ann db/a.json EXECUTED P2:d751713988987e9331980363e24189ce null 1 1",
            wanted: "\nnot db/a.json::1::ann",
        },
        Case {
            sets: r#"[{"id":1,"author":"ann"}]"#,
            rows: "2 ann db/a.json EXECUTED P2:d751713988987e9331980363e24189ce null 1 1",
            wanted: "\nnot db/a.json::2::ann",
        },
        Case {
            sets: r#"[{"id":1,"author":"ann"}]"#,
            rows: "1 bob db/a.json EXECUTED P2:d751713988987e9331980363e24189ce null 1 1",
            wanted: "\nnot db/a.json::1::bob",
        },
        Case {
            sets: r#"[{"id":1,"author":"ann"}]"#,
            rows: "1 ann db/b.json EXECUTED P2:d751713988987e9331980363e24189ce null 1 1",
            wanted: "\nnot db/b.json::1::ann",
        },
        Case {
            sets: r#"[{"id":1,"author":"ann","dbms":"mysql"}]"#,
            rows: "1 ann db/a.json EXECUTED P2:d751713988987e9331980363e24189ce null 1 1",
            wanted: "\nnot db/a.json::1::ann",
        },
        Case {
            sets: r#"[{"id":1,"author":"ann","dbms":"mysql","rollback":""}]"#,
            rows: "1 ann db/a.json EXECUTED P2:d751713988987e9331980363e24189ce null 1 1",
            wanted: "\nnot db/a.json::1::ann",
        },
        Case {
            sets: r#"[{"id":2,"author":"ann"}]"#,
            rows: "1 ann db/a.json EXECUTED P2:d751713988987e9331980363e24189ce null 1 1",
            wanted: "\nnot db/a.json::1::ann",
        },
    ];
    reverse(&rt, rt.alloc(), &cases)
}

// Whatever its changeset says.
#[test]
fn a_marked_row_goes_alone(rt: HostRuntime) {
    let cases = [
        Case {
            sets: r#"[{"id":1,"author":"ann"}]"#,
            rows: "1 ann db/a.json MARK_RAN P2:d751713988987e9331980363e24189ce null 1 1",
            wanted: "\nalone",
        },
        Case {
            sets: r#"[{"id":1,"author":"ann","changes":[{"delete":{"tableName":"b"}}]}]"#,
            rows: "1 ann db/a.json MARK_RAN P2:d751713988987e9331980363e24189ce null 1 1",
            wanted: "\nalone",
        },
        Case {
            sets: r#"[{"id":1,"author":"ann","dbms":"mysql"}]"#,
            rows: "1 ann db/a.json MARK_RAN P2:d751713988987e9331980363e24189ce null 1 1",
            wanted: "\nalone",
        },
        Case {
            sets: "[]",
            rows: "1 ann db/a.json MARK_RAN P2:d751713988987e9331980363e24189ce null 1 1",
            wanted: "\nalone",
        },
    ];
    reverse(&rt, rt.alloc(), &cases)
}

// The last row goes first, and is the first to be told.
#[test]
fn rows_are_taken_back_from_the_last(rt: HostRuntime) {
    let cases = [
        Case {
            sets: r#"[{"id":3,"author":"ann"},{"id":1,"author":"ann"},{"id":2,"author":"ann"}]"#,
            rows: "1 ann db/a.json EXECUTED P2:d751713988987e9331980363e24189ce null 1 1\n2 ann db/a.json EXECUTED P2:d751713988987e9331980363e24189ce null 1 2\n3 ann db/a.json EXECUTED P2:d751713988987e9331980363e24189ce null 1 3",
            wanted: "\nby 0\nby 2\nby 1",
        },
        Case {
            sets: r#"[{"id":1,"author":"ann"},{"id":2,"author":"ann"}]"#,
            rows: "1 ann db/a.json EXECUTED P2:d751713988987e9331980363e24189ce null 1 1\n9 ann db/a.json MARK_RAN P2:d751713988987e9331980363e24189ce null 1 2\n2 ann db/a.json EXECUTED P2:d751713988987e9331980363e24189ce null 1 3",
            wanted: "\nby 1\nalone\nby 0",
        },
        Case {
            sets: r#"[{"id":1,"author":"ann"},{"id":2,"author":"ann"}]"#,
            rows: "8 ann db/a.json EXECUTED P2:d751713988987e9331980363e24189ce null 1 1\n1 ann db/a.json EXECUTED P2:d751713988987e9331980363e24189ce null 1 2\n9 ann db/a.json EXECUTED P2:d751713988987e9331980363e24189ce null 1 3\n2 ann db/a.json EXECUTED P2:d751713988987e9331980363e24189ce null 1 4",
            wanted: "\nnot db/a.json::9::ann",
        },
        Case {
            sets: r#"[{"id":1,"author":"ann"},{"id":2,"author":"ann"}]"#,
            rows: "8 ann db/a.json EXECUTED P2:d751713988987e9331980363e24189ce null 1 1\n1 ann db/a.json EXECUTED P2:d751713988987e9331980363e24189ce null 1 2",
            wanted: "\nnot db/a.json::8::ann",
        },
    ];
    reverse(&rt, rt.alloc(), &cases)
}

// Of several changesets with one identity it is the first that is here.
#[test]
fn twins_are_taken_back(rt: HostRuntime) {
    let cases = [
        Case {
            sets: r#"[{"id":1,"author":"ann"},{"id":1,"author":"ann","changes":[{"delete":{"tableName":"b"}}]}]"#,
            rows: "1 ann db/a.json EXECUTED P2:d751713988987e9331980363e24189ce null 1 1",
            wanted: "\nby 0",
        },
        Case {
            sets: r#"[{"id":1,"author":"ann","changes":[{"delete":{"tableName":"b"}}]},{"id":1,"author":"ann"}]"#,
            rows: "1 ann db/a.json EXECUTED P2:d751713988987e9331980363e24189ce null 1 1",
            wanted: "\nnot db/a.json::1::ann",
        },
        Case {
            sets: r#"[{"id":1,"author":"ann","dbms":"mysql"},{"id":1,"author":"ann"},{"id":1,"author":"ann"}]"#,
            rows: "1 ann db/a.json EXECUTED P2:d751713988987e9331980363e24189ce null 1 1",
            wanted: "\nby 1",
        },
        Case {
            sets: r#"[{"id":1,"author":"ann"}]"#,
            rows: "1 ann db/a.json EXECUTED P2:d751713988987e9331980363e24189ce null 1 1\n1 ann db/a.json EXECUTED P2:d751713988987e9331980363e24189ce null 1 2",
            wanted: "\nby 0\nby 0",
        },
    ];
    reverse(&rt, rt.alloc(), &cases)
}
