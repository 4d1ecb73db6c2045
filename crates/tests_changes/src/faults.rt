use crate::shown::{Case, fail, say};
use std::test::Fail;

#[test]
fn what_is_no_change_has_a_fault(rt: HostRuntime) -> Result<(), Fail> {
    let cases = [
        ("[]", ": bad"),
        (r#""dropTable""#, ": bad"),
        ("{}", ": bad"),
        (r#"{"dropTable":{"tableName":"t"},"empty":{}}"#, ": bad"),
        (r#"{"dropTables":{"tableName":"t"}}"#, "dropTables: unknown"),
        (r#"{"DropTable":{"tableName":"t"}}"#, "DropTable: unknown"),
        (r#"{"loadData":{"tableName":"t"}}"#, "loadData: unknown"),
        (r#"{"dropTable":[]}"#, "dropTable: bad"),
        (r#"{"dropTable":{}}"#, "dropTable.tableName: missing"),
        (
            r#"{"dropTable":{"tableName":null}}"#,
            "dropTable.tableName: bad",
        ),
        (
            r#"{"dropTable":{"tableName":["t"]}}"#,
            "dropTable.tableName: bad",
        ),
        (
            r#"{"dropTable":{"tableName":""}}"#,
            "dropTable.tableName: bad",
        ),
        (
            r#"{"dropTable":{"tableName":"nnnnnnnnnnnnnnnnnnnnnnnnnnnnnnnnnnnnnnnnnnnnnnnnnnnnnnnnnnnnnnnn"}}"#,
            "dropTable.tableName: bad",
        ),
        (
            r#"{"dropTable":{"tableName":"a\tb"}}"#,
            "dropTable.tableName: bad",
        ),
        (
            r#"{"dropTable":{"zoo":1,"cascade":true}}"#,
            "dropTable.cascade: unknown",
        ),
        (
            r#"{"dropTable":{"tableName":"","stripComments":true}}"#,
            "dropTable.stripComments: unknown",
        ),
        (
            r#"{"dropTable":{"tableName":"t","schemaName":""}}"#,
            "dropTable.schemaName: bad",
        ),
        (
            r#"{"dropTable":{"tableName":"t","catalogName":"main"}}"#,
            "dropTable.catalogName: bad",
        ),
        (
            r#"{"dropTable":{"schemaName":""}}"#,
            "dropTable.tableName: missing",
        ),
        (
            r#"{"renameColumn":{"newColumnName":"","oldColumnName":"a","tableName":"t"}}"#,
            "renameColumn.newColumnName: bad",
        ),
        (
            r#"{"renameColumn":{"newColumnName":"","tableName":"t"}}"#,
            "renameColumn.oldColumnName: missing",
        ),
        (r#"{"empty":{"a":1}}"#, "empty.a: unknown"),
    ];
    fail(&rt, rt.alloc(), &cases)
}

#[test]
fn columns_have_faults(rt: HostRuntime) -> Result<(), Fail> {
    let cases = [
        (
            r#"{"createTable":{"tableName":"t","columns":[],"zone":1}}"#,
            "createTable.zone: unknown",
        ),
        (
            r#"{"createTable":{"tableName":"t","columns":[]}}"#,
            "createTable.columns: bad",
        ),
        (
            r#"{"createTable":{"tableName":"t","columns":{"name":"a","type":"int"}}}"#,
            "createTable.columns: bad",
        ),
        (
            r#"{"createTable":{"tableName":"t","columns":["a"]}}"#,
            "createTable.columns[0]: bad",
        ),
        (
            r#"{"createTable":{"tableName":"t","columns":[{"column":"a"}]}}"#,
            "createTable.columns[0].column: bad",
        ),
        (
            r#"{"createTable":{"tableName":"t","columns":[{"column":{"name":"a","type":"json"}}]}}"#,
            "createTable.columns[0].column.type: bad",
        ),
        (
            r#"{"createTable":{"tableName":"t","columns":[{"column":{"name":"a","type":"varchar(10001)"}}]}}"#,
            "createTable.columns[0].column.type: bad",
        ),
        (
            r#"{"createTable":{"tableName":"t","columns":[{"name":"a","type":"int"},{"name":"b"}]}}"#,
            "createTable.columns[1].type: missing",
        ),
        (
            r#"{"createTable":{"tableName":"t","columns":[{"column":{"name":"a","type":"int","value":"x"}}]}}"#,
            "createTable.columns[0].column.value: unknown",
        ),
        (
            r#"{"createTable":{"tableName":"t","columns":[{"column":{"name":"a","type":"int","defaultValueBoolean":true,"defaultValue":"x"}}]}}"#,
            "createTable.columns[0].column.defaultValueBoolean: bad",
        ),
        (
            r#"{"createTable":{"tableName":"t","columns":[{"column":{"name":"a","type":"int","defaultValueNumeric":"111111111111111111111111111111111111111"}}]}}"#,
            "createTable.columns[0].column.defaultValueNumeric: bad",
        ),
        (
            r#"{"createTable":{"tableName":"t","columns":[{"column":{"name":"a","type":"int","defaultValueDate":"2023-02-29"}}]}}"#,
            "createTable.columns[0].column.defaultValueDate: bad",
        ),
        (
            r#"{"createTable":{"tableName":"t","columns":[{"column":{"name":"a","type":"int","constraints":true}}]}}"#,
            "createTable.columns[0].column.constraints: bad",
        ),
        (
            r#"{"createTable":{"tableName":"t","columns":[{"column":{"name":"a","type":"int","constraints":{"remarks":"x"}}}]}}"#,
            "createTable.columns[0].column.constraints.remarks: unknown",
        ),
        (
            r#"{"createTable":{"tableName":"t","columns":[{"column":{"name":"a","type":"int","constraints":{"references":"p(id)"}}}]}}"#,
            "createTable.columns[0].column.constraints.foreignKeyName: missing",
        ),
        (
            r#"{"createTable":{"tableName":"t","columns":[{"column":{"name":"a","type":"int","constraints":{"references":"p","foreignKeyName":"f"}}}]}}"#,
            "createTable.columns[0].column.constraints.references: bad",
        ),
        (
            r#"{"addColumn":{"tableName":"t","columns":[{"column":{"name":"a","type":"int","autoIncrement":true}}]}}"#,
            "addColumn.columns[0].column.autoIncrement: unknown",
        ),
        (
            r#"{"addColumn":{"tableName":"t","columns":[{"column":{"name":"a","type":"int","constraints":{"primaryKey":true}}}]}}"#,
            "addColumn.columns[0].column.constraints.primaryKey: unknown",
        ),
        (
            r#"{"addColumn":{"tableName":"t","columns":[{"column":{"name":"a","type":"int","valueNumeric":"1e2"}}]}}"#,
            "addColumn.columns[0].column.valueNumeric: bad",
        ),
        (
            r#"{"addDefaultValue":{"tableName":"t","columnName":"a"}}"#,
            "addDefaultValue.defaultValue: missing",
        ),
        (
            r#"{"addDefaultValue":{"tableName":"t","columnName":"a","schemaName":["main"]}}"#,
            "addDefaultValue.schemaName: bad",
        ),
        (
            r#"{"addDefaultValue":{"tableName":"t","columnName":"a","defaultValueBoolean":"yes"}}"#,
            "addDefaultValue.defaultValueBoolean: bad",
        ),
        (
            r#"{"insert":{"tableName":"t","columns":[{"column":{"name":"a","value":"x","valueNumeric":1}}]}}"#,
            "insert.columns[0].column.valueNumeric: bad",
        ),
    ];
    fail(&rt, rt.alloc(), &cases)
}

#[test]
fn keys_views_and_texts_have_faults(rt: HostRuntime) -> Result<(), Fail> {
    let cases = [
        (
            r#"{"addForeignKeyConstraint":{"constraintName":"f","baseTableName":"t","baseColumnNames":"a","referencedTableName":"p","referencedColumnNames":"c","onDelete":"SET NULL"}}"#,
            "addForeignKeyConstraint.onDelete: bad",
        ),
        (
            r#"{"addUniqueConstraint":{"tableName":"t","columnNames":"a,,b"}}"#,
            "addUniqueConstraint.columnNames: bad",
        ),
        (
            r#"{"createIndex":{"tableName":"t","columns":[{"column":{"name":"a","type":"int"}}]}}"#,
            "createIndex.columns[0].column.type: unknown",
        ),
        (
            r#"{"createIndex":{"tableName":"t","columns":[{"column":{"name":"a"}}],"unique":"yes"}}"#,
            "createIndex.unique: bad",
        ),
        (
            r#"{"createView":{"viewName":"v","selectQuery":"SELECT 1"}}"#,
            "createView.selectQuery: bad",
        ),
        (
            r#"{"update":{"tableName":"t","columns":[{"name":"a"}],"where":"a ="}}"#,
            "update.where: bad",
        ),
        (
            r#"{"delete":{"where":"a = 1"}}"#,
            "delete.tableName: missing",
        ),
        (r#"{"sql":{"sql":"drop table t; drop it"}}"#, "sql.sql: bad"),
        (r#"{"sql":{"sql":"drop table t /* and u"}}"#, "sql.sql: bad"),
        (
            r#"{"sql":{"sql":"drop table t; drop table u","splitStatements":false}}"#,
            "sql.sql: bad",
        ),
        (
            r#"{"sql":{"sql":"'","splitStatements":"yes","endDelimiter":""}}"#,
            "sql.splitStatements: bad",
        ),
        (
            r#"{"sql":{"sql":"drop it","endDelimiter":""}}"#,
            "sql.endDelimiter: bad",
        ),
        (r#"{"tagDatabase":{"tag":""}}"#, "tagDatabase.tag: bad"),
    ];
    fail(&rt, rt.alloc(), &cases)
}

// Sequences are not for MySQL, which is told before anything else; there a column's type has to be
// given where it is made nullable or not.
#[test]
fn faults_of_one_dialect(rt: HostRuntime) -> Result<(), Fail> {
    let cases = [
        Case {
            json: r#"{"createSequence":{"sequenceName":"s","incrementBy":0}}"#,
            canonical: "",
            postgresql: "createSequence.incrementBy: bad",
            mysql: "createSequence: not for mysql",
        },
        Case {
            json: r#"{"createSequence":{"sequenceName":"s","startValue":"1"}}"#,
            canonical: "",
            postgresql: "createSequence.startValue: bad",
            mysql: "createSequence: not for mysql",
        },
        Case {
            json: r#"{"createSequence":{"sequenceName":"s","schemaName":"app"}}"#,
            canonical: "",
            postgresql: "createSequence.schemaName: bad",
            mysql: "createSequence: not for mysql",
        },
        Case {
            json: r#"{"dropSequence":[]}"#,
            canonical: "",
            postgresql: "dropSequence: bad",
            mysql: "dropSequence: not for mysql",
        },
        Case {
            json: r#"{"renameSequence":{"zone":1}}"#,
            canonical: "",
            postgresql: "renameSequence.zone: unknown",
            mysql: "renameSequence: not for mysql",
        },
        Case {
            json: r#"{"addNotNullConstraint":{"tableName":"t","columnName":"a","schemaName":1}}"#,
            canonical: "",
            postgresql: "addNotNullConstraint.schemaName: bad",
            mysql: "addNotNullConstraint.columnDataType: missing",
        },
        Case {
            json: r#"{"dropNotNullConstraint":{"tableName":"t","columnName":"a","schemaName":null}}"#,
            canonical: "",
            postgresql: "dropNotNullConstraint.schemaName: bad",
            mysql: "dropNotNullConstraint.columnDataType: missing",
        },
    ];
    say(&rt, rt.alloc(), &cases)
}
