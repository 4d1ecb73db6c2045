use crate::shown::tell;
use std::test::Fail;

// They are there, with all that is asked for.
#[test]
fn tracking_tables_are_not_seen(rt: HostRuntime) -> Result<(), Fail> {
    let cases = [
        (
            r#"[{"tableExists":{"tableName":"DATABASECHANGELOG"}}]"#,
            "fails",
        ),
        (
            r#"[{"tableExists":{"tableName":"databasechangelog"}}]"#,
            "fails",
        ),
        (
            r#"[{"viewExists":{"viewName":"databasechangeloglock"}}]"#,
            "fails",
        ),
        (
            r#"[{"sequenceExists":{"sequenceName":"DatabaseChangeLog"}}]"#,
            "fails",
        ),
        (
            r#"[{"columnExists":{"tableName":"DATABASECHANGELOG","columnName":"ID"}}]"#,
            "fails",
        ),
        (
            r#"[{"indexExists":{"tableName":"DATABASECHANGELOG","indexName":"x"}}]"#,
            "fails",
        ),
        (
            r#"[{"uniqueConstraintExists":{"tableName":"DATABASECHANGELOG","constraintName":"c"}}]"#,
            "fails",
        ),
        (
            r#"[{"foreignKeyConstraintExists":{"foreignKeyTableName":"DATABASECHANGELOG","foreignKeyName":"g"}}]"#,
            "fails",
        ),
        (
            r#"[{"primaryKeyExists":{"tableName":"DATABASECHANGELOG"}}]"#,
            "fails",
        ),
        (
            r#"[{"primaryKeyExists":{"tableName":"DATABASECHANGELOG","primaryKeyName":"k"}}]"#,
            "fails",
        ),
        (
            r#"[{"rowCount":{"tableName":"DATABASECHANGELOG","expectedRows":0}}]"#,
            "missing",
        ),
        (
            r#"[{"tableIsEmpty":{"tableName":"DATABASECHANGELOG"}}]"#,
            "missing",
        ),
        (
            r#"[{"tableIsEmpty":{"tableName":"databasechangeloglock"}}]"#,
            "missing",
        ),
        (
            r#"[{"sqlCheck":{"expectedResult":"0","sql":"select count(*) from \"DATABASECHANGELOG\""}}]"#,
            "reserved",
        ),
        (
            r#"[{"sqlCheck":{"expectedResult":"7","sql":"select id from databasechangeloglock"}}]"#,
            "reserved",
        ),
        (
            r#"[{"sqlCheck":{"expectedResult":"0","sql":"select x from \"DatabaseChangeLogLock\""}}]"#,
            "reserved",
        ),
    ];
    tell(&rt, rt.alloc(), &cases)
}
