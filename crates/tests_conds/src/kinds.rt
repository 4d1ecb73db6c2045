use crate::shown::{tell, tell_in_mysql};
use std::test::Fail;

#[test]
fn dialects(rt: HostRuntime) -> Result<(), Fail> {
    let cases = [
        (r#"[{"dbms":{"type":"postgresql"}}]"#, "holds"),
        (r#"[{"dbms":{"type":"mysql, postgresql"}}]"#, "holds"),
        (r#"[{"dbms":{"type":"mysql"}}]"#, "fails"),
        (r#"[{"dbms":{"type":" oracle , all "}}]"#, "holds"),
        (r#"[{"dbms":{"type":"!mysql"}}]"#, "holds"),
        (r#"[{"dbms":{"type":"!postgresql"}}]"#, "fails"),
        (r#"[{"dbms":{"type":"all, !postgresql"}}]"#, "fails"),
        (r#"[{"dbms":{"type":"mysql, !oracle"}}]"#, "fails"),
        (r#"[{"dbms":{"type":"none"}}]"#, "fails"),
        (r#"[{"dbms":{"type":"PostgreSQL"}}]"#, "fails"),
        (r#"[{"dbms":{"type":""}}]"#, "holds"),
    ];
    tell(&rt, rt.alloc(), &cases)
}

#[test]
fn kinds_in_mysql(rt: HostRuntime) -> Result<(), Fail> {
    let cases = [
        (r#"[{"dbms":{"type":"postgresql"}}]"#, "fails"),
        (r#"[{"dbms":{"type":"mysql"}}]"#, "holds"),
        (r#"[{"dbms":{"type":"!mysql"}}]"#, "fails"),
        (r#"[{"dbms":{"type":"!postgresql"}}]"#, "holds"),
        (r#"[{"dbms":{"type":"all"}}]"#, "holds"),
        (r#"[{"tableExists":{"tableName":"P"}}]"#, "holds"),
        (r#"[{"tableExists":{"tableName":"p"}}]"#, "fails"),
        (
            r#"[{"primaryKeyExists":{"tableName":"P","primaryKeyName":"PRIMARY"}}]"#,
            "holds",
        ),
        (
            r#"[{"primaryKeyExists":{"tableName":"P","primaryKeyName":"pk_P"}}]"#,
            "fails",
        ),
        (r#"[{"sequenceExists":{"sequenceName":"P"}}]"#, "fails"),
        (
            r#"[{"sqlCheck":{"expectedResult":"seven","sql":"select `s` from v"}}]"#,
            "holds",
        ),
        (
            r#"[{"sqlCheck":{"expectedResult":"7","sql":"select id from p"}}]"#,
            "missing",
        ),
    ];
    tell_in_mysql(&rt, rt.alloc(), &cases)
}

#[test]
fn objects(rt: HostRuntime) -> Result<(), Fail> {
    let cases = [
        (r#"[{"tableExists":{"tableName":"t"}}]"#, "holds"),
        (r#"[{"tableExists":{"tableName":"x"}}]"#, "fails"),
        (r#"[{"tableExists":{"tableName":"T"}}]"#, "fails"),
        (r#"[{"tableExists":{"tableName":"v"}}]"#, "fails"),
        (
            r#"[{"tableExists":{"tableName":"t","schemaName":"public","catalogName":"public"}}]"#,
            "holds",
        ),
        (r#"[{"viewExists":{"viewName":"v"}}]"#, "holds"),
        (r#"[{"viewExists":{"viewName":"x"}}]"#, "fails"),
        (r#"[{"viewExists":{"viewName":"t"}}]"#, "fails"),
        (r#"[{"sequenceExists":{"sequenceName":"q"}}]"#, "holds"),
        (r#"[{"sequenceExists":{"sequenceName":"x"}}]"#, "fails"),
        (r#"[{"sequenceExists":{"sequenceName":"t"}}]"#, "fails"),
    ];
    tell(&rt, rt.alloc(), &cases)
}

#[test]
fn parts_of_tables(rt: HostRuntime) -> Result<(), Fail> {
    let cases = [
        (
            r#"[{"columnExists":{"tableName":"t","columnName":"n"}}]"#,
            "holds",
        ),
        (
            r#"[{"columnExists":{"tableName":"t","columnName":"x"}}]"#,
            "fails",
        ),
        (
            r#"[{"columnExists":{"tableName":"e","columnName":"n"}}]"#,
            "fails",
        ),
        (
            r#"[{"columnExists":{"tableName":"x","columnName":"n"}}]"#,
            "fails",
        ),
        (
            r#"[{"columnExists":{"tableName":"v","columnName":"s"}}]"#,
            "fails",
        ),
        (
            r#"[{"indexExists":{"tableName":"t","indexName":"i"}}]"#,
            "holds",
        ),
        (
            r#"[{"indexExists":{"tableName":"t","indexName":"u"}}]"#,
            "fails",
        ),
        (
            r#"[{"indexExists":{"tableName":"e","indexName":"i"}}]"#,
            "fails",
        ),
        (
            r#"[{"indexExists":{"tableName":"x","indexName":"i"}}]"#,
            "fails",
        ),
        (
            r#"[{"uniqueConstraintExists":{"tableName":"t","constraintName":"u"}}]"#,
            "holds",
        ),
        (
            r#"[{"uniqueConstraintExists":{"tableName":"t","constraintName":"f"}}]"#,
            "fails",
        ),
        (
            r#"[{"uniqueConstraintExists":{"tableName":"p","constraintName":"u"}}]"#,
            "fails",
        ),
        (
            r#"[{"uniqueConstraintExists":{"tableName":"x","constraintName":"u"}}]"#,
            "fails",
        ),
        (
            r#"[{"foreignKeyConstraintExists":{"foreignKeyTableName":"t","foreignKeyName":"f"}}]"#,
            "holds",
        ),
        (
            r#"[{"foreignKeyConstraintExists":{"foreignKeyTableName":"t","foreignKeyName":"u"}}]"#,
            "fails",
        ),
        (
            r#"[{"foreignKeyConstraintExists":{"foreignKeyTableName":"p","foreignKeyName":"f"}}]"#,
            "fails",
        ),
        (
            r#"[{"foreignKeyConstraintExists":{"foreignKeyTableName":"x","foreignKeyName":"f"}}]"#,
            "fails",
        ),
        (r#"[{"primaryKeyExists":{"tableName":"p"}}]"#, "holds"),
        (
            r#"[{"primaryKeyExists":{"tableName":"p","primaryKeyName":"pk_p"}}]"#,
            "holds",
        ),
        (
            r#"[{"primaryKeyExists":{"tableName":"p","primaryKeyName":"k"}}]"#,
            "fails",
        ),
        (r#"[{"primaryKeyExists":{"tableName":"t"}}]"#, "fails"),
        (
            r#"[{"primaryKeyExists":{"tableName":"t","primaryKeyName":"u"}}]"#,
            "fails",
        ),
        (r#"[{"primaryKeyExists":{"tableName":"x"}}]"#, "fails"),
    ];
    tell(&rt, rt.alloc(), &cases)
}

#[test]
fn rows_and_changesets(rt: HostRuntime) -> Result<(), Fail> {
    let cases = [
        (
            r#"[{"changeSetExecuted":{"id":"1","author":"ann","changeLogFile":"db/a.json"}}]"#,
            "holds",
        ),
        (
            r#"[{"changeSetExecuted":{"id":2,"author":"bob","changeLogFile":"db/b.yaml"}}]"#,
            "holds",
        ),
        (
            r#"[{"changeSetExecuted":{"id":"2","author":"ann","changeLogFile":"db/a.json"}}]"#,
            "fails",
        ),
        (
            r#"[{"changeSetExecuted":{"id":"1","author":"bob","changeLogFile":"db/a.json"}}]"#,
            "fails",
        ),
        (
            r#"[{"changeSetExecuted":{"id":"1","author":"ann","changeLogFile":"db/b.yaml"}}]"#,
            "fails",
        ),
        (
            r#"[{"changeSetExecuted":{"id":"1","author":"ann","changeLogFile":"a.json"}}]"#,
            "fails",
        ),
        (
            r#"[{"rowCount":{"tableName":"t","expectedRows":2}}]"#,
            "holds",
        ),
        (
            r#"[{"rowCount":{"tableName":"t","expectedRows":3}}]"#,
            "fails",
        ),
        (
            r#"[{"rowCount":{"tableName":"e","expectedRows":0}}]"#,
            "holds",
        ),
        (
            r#"[{"rowCount":{"tableName":"e","expectedRows":-1}}]"#,
            "fails",
        ),
        (
            r#"[{"rowCount":{"tableName":"x","expectedRows":0}}]"#,
            "missing",
        ),
        (
            r#"[{"rowCount":{"tableName":"v","expectedRows":1}}]"#,
            "missing",
        ),
        (r#"[{"tableIsEmpty":{"tableName":"e"}}]"#, "holds"),
        (r#"[{"tableIsEmpty":{"tableName":"t"}}]"#, "fails"),
        (r#"[{"tableIsEmpty":{"tableName":"x"}}]"#, "missing"),
        (r#"[{"tableIsEmpty":{"tableName":"q"}}]"#, "missing"),
    ];
    tell(&rt, rt.alloc(), &cases)
}
