use crate::shown::are_read;
use std::test::Fail;

#[test]
fn reactions_are_read(rt: HostRuntime) -> Result<(), Fail> {
    let cases = [
        ("[]", "HALT HALT"),
        (
            r#"[{"onFail":"MARK_RAN"},{"onError":"WARN"}]"#,
            "MARK_RAN WARN",
        ),
        (
            r#"[{"onError":"CONTINUE","onFail":"HALT"},{"tableExists":{"tableName":"t"}}]"#,
            "HALT CONTINUE",
        ),
        (
            r#"[{"onFail":"WARN"},{"tableExists":{"tableName":"t"}},{"onFail":"CONTINUE"}]"#,
            "CONTINUE HALT",
        ),
        (
            r#"[{"onFailMessage":"it failed","onErrorMessage":["?"]}]"#,
            "HALT HALT",
        ),
    ];
    are_read(&rt, rt.alloc(), &cases)
}

#[test]
fn faults_have_their_places(rt: HostRuntime) -> Result<(), Fail> {
    let cases = [
        ("{}", ": bad"),
        (r#""all""#, ": bad"),
        (r#"[{"tableExists":{"tableName":"t"}},[]]"#, "[1]: bad"),
        ("[7]", "[0]: bad"),
        (
            r#"[{"tableExist":{"tableName":"t"}}]"#,
            "[0].tableExist: unknown",
        ),
        (
            r#"[{"tableExists":{}}]"#,
            "[0].tableExists.tableName: missing",
        ),
        (r#"[{"tableExists":[]}]"#, "[0].tableExists: bad"),
        (
            r#"[{"tableExists":{"viewName":"v"}}]"#,
            "[0].tableExists.viewName: unknown",
        ),
        (
            r#"[{"tableExists":{"tableName":"t","remarks":"x"}}]"#,
            "[0].tableExists.remarks: unknown",
        ),
        (
            r#"[{"tableExists":{"tableName":"t","schemaName":"main"}}]"#,
            "[0].tableExists.schemaName: bad",
        ),
        (
            r#"[{"tableExists":{"schemaName":"main"}}]"#,
            "[0].tableExists.tableName: missing",
        ),
        (
            r#"[{"columnExists":{"columnName":"","tableName":"t"}}]"#,
            "[0].columnExists.columnName: bad",
        ),
        (
            r#"[{"foreignKeyConstraintExists":{"foreignKeyName":"f"}}]"#,
            "[0].foreignKeyConstraintExists.foreignKeyTableName: missing",
        ),
        (
            r#"[{"primaryKeyExists":{"tableName":"t","primaryKeyName":null}}]"#,
            "[0].primaryKeyExists.primaryKeyName: bad",
        ),
        (
            r#"[{"changeSetExecuted":{"id":"1","author":"ann"}}]"#,
            "[0].changeSetExecuted.changeLogFile: missing",
        ),
        (r#"[{"dbms":{"type":["mysql"]}}]"#, "[0].dbms.type: bad"),
        (
            r#"[{"sqlCheck":{"sql":"select 1"}}]"#,
            "[0].sqlCheck.expectedResult: missing",
        ),
        (
            r#"[{"sqlCheck":{"expectedResult":"1","sql":"select 1"}}]"#,
            "[0].sqlCheck.sql: bad",
        ),
        (
            r#"[{"rowCount":{"tableName":"t","expectedRows":"2"}}]"#,
            "[0].rowCount.expectedRows: bad",
        ),
        (
            r#"[{"tableExists":{"tableName":"t"}},{"onFail":"STOP"}]"#,
            "[1].onFail: bad",
        ),
        (r#"[{"onError":"warn"}]"#, "[0].onError: bad"),
        (
            r#"[{"and":{"tableExists":{"tableName":"t"}}}]"#,
            "[0].and: bad",
        ),
        (
            r#"[{"or":[{"tableExists":{"tableName":"t"}},{"not":[{"tableExists":{}}]}]}]"#,
            "[0].or[1].not[0].tableExists.tableName: missing",
        ),
        (
            r#"[{"and":[{"onFail":"HALT"}]}]"#,
            "[0].and[0].onFail: unknown",
        ),
        (r#"[{"zoo":1,"dbms":{}}]"#, "[0].dbms.type: missing"),
    ];
    are_read(&rt, rt.alloc(), &cases)
}
