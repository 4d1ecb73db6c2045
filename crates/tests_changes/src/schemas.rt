use crate::shown::{Case, fail, say};
use std::test::Fail;

#[test]
fn changes_say_their_schema(rt: HostRuntime) -> Result<(), Fail> {
    let cases = [
        Case {
            json: r#"{"createTable":{"schemaName":"app","tableName":"t","columns":[{"column":{"name":"a","type":"int","constraints":{"unique":true,"references":"p(c)","foreignKeyName":"f"}}}]}}"#,
            canonical: "11:createTable{9:tableNamet1:t7:columns[{4:namet1:a4:typet7:INTEGER11:constraints{6:uniqueb110:referencest4:p(c)14:foreignKeyNamet1:f}}]10:schemaNamet3:app}",
            postgresql: r#"
CREATE TABLE "app"."t" ("a" INTEGER, CONSTRAINT "uq_t_a" UNIQUE ("a"), CONSTRAINT "f" FOREIGN KEY ("a") REFERENCES "app"."p" ("c"))
undo DROP TABLE "app"."t""#,
            mysql: "createTable.schemaName: bad",
        },
        Case {
            json: r#"{"dropTable":{"tableName":"t","schemaName":"app"}}"#,
            canonical: "9:dropTable{9:tableNamet1:t10:schemaNamet3:app}",
            postgresql: r#"
DROP TABLE "app"."t"
no undo"#,
            mysql: "dropTable.schemaName: bad",
        },
        Case {
            json: r#"{"renameTable":{"oldTableName":"t","newTableName":"u","schemaName":"app"}}"#,
            canonical: "11:renameTable{12:oldTableNamet1:t12:newTableNamet1:u10:schemaNamet3:app}",
            postgresql: r#"
ALTER TABLE "app"."t" RENAME TO "u"
undo ALTER TABLE "app"."u" RENAME TO "t""#,
            mysql: "renameTable.schemaName: bad",
        },
        Case {
            json: r#"{"addColumn":{"tableName":"t","schemaName":"app","columns":[{"column":{"name":"a","type":"int","constraints":{"references":"p(c)","foreignKeyName":"f"}}}]}}"#,
            canonical: "9:addColumn{9:tableNamet1:t7:columns[{4:namet1:a4:typet7:INTEGER11:constraints{10:referencest4:p(c)14:foreignKeyNamet1:f}}]10:schemaNamet3:app}",
            postgresql: r#"
ALTER TABLE "app"."t" ADD COLUMN "a" INTEGER
ALTER TABLE "app"."t" ADD CONSTRAINT "f" FOREIGN KEY ("a") REFERENCES "app"."p" ("c")
undo ALTER TABLE "app"."t" DROP CONSTRAINT "f"
undo ALTER TABLE "app"."t" DROP COLUMN "a""#,
            mysql: "addColumn.schemaName: bad",
        },
        Case {
            json: r#"{"createIndex":{"indexName":"ix","tableName":"t","schemaName":"app","columns":[{"column":{"name":"a"}}]}}"#,
            canonical: "11:createIndex{9:indexNamet2:ix9:tableNamet1:t7:columns[{4:namet1:a}]10:schemaNamet3:app}",
            postgresql: r#"
CREATE INDEX "ix" ON "app"."t" ("a")
undo DROP INDEX "app"."ix""#,
            mysql: "createIndex.schemaName: bad",
        },
        Case {
            json: r#"{"dropIndex":{"indexName":"ix","tableName":"t","schemaName":"app"}}"#,
            canonical: "9:dropIndex{9:indexNamet2:ix9:tableNamet1:t10:schemaNamet3:app}",
            postgresql: r#"
DROP INDEX "app"."ix"
no undo"#,
            mysql: "dropIndex.schemaName: bad",
        },
        Case {
            json: r#"{"addForeignKeyConstraint":{"constraintName":"f","baseTableName":"t","baseTableSchemaName":"app","baseColumnNames":"a","referencedTableName":"p","referencedColumnNames":"c"}}"#,
            canonical: "23:addForeignKeyConstraint{14:constraintNamet1:f13:baseTableNamet1:t15:baseColumnNames[t1:a]19:referencedTableNamet1:p21:referencedColumnNames[t1:c]19:baseTableSchemaNamet3:app}",
            postgresql: r#"
ALTER TABLE "app"."t" ADD CONSTRAINT "f" FOREIGN KEY ("a") REFERENCES "p" ("c")
undo ALTER TABLE "app"."t" DROP CONSTRAINT "f""#,
            mysql: "addForeignKeyConstraint.baseTableSchemaName: bad",
        },
        Case {
            json: r#"{"addForeignKeyConstraint":{"constraintName":"f","baseTableName":"t","baseColumnNames":"a","referencedTableName":"p","referencedTableSchemaName":"app","referencedColumnNames":"c","baseTableSchemaName":"public"}}"#,
            canonical: "23:addForeignKeyConstraint{14:constraintNamet1:f13:baseTableNamet1:t15:baseColumnNames[t1:a]19:referencedTableNamet1:p21:referencedColumnNames[t1:c]25:referencedTableSchemaNamet3:app}",
            postgresql: r#"
ALTER TABLE "t" ADD CONSTRAINT "f" FOREIGN KEY ("a") REFERENCES "app"."p" ("c")
undo ALTER TABLE "t" DROP CONSTRAINT "f""#,
            mysql: "addForeignKeyConstraint.referencedTableSchemaName: bad",
        },
        Case {
            json: r#"{"dropForeignKeyConstraint":{"baseTableName":"t","constraintName":"f","baseTableSchemaName":"a \"b\".c"}}"#,
            canonical: "24:dropForeignKeyConstraint{13:baseTableNamet1:t14:constraintNamet1:f19:baseTableSchemaNamet7:a \"b\".c}",
            postgresql: r#"
ALTER TABLE "a ""b"".c"."t" DROP CONSTRAINT "f"
no undo"#,
            mysql: "dropForeignKeyConstraint.baseTableSchemaName: bad",
        },
        Case {
            json: r#"{"addPrimaryKey":{"tableName":"t","columnNames":"a","schemaName":"app"}}"#,
            canonical: "13:addPrimaryKey{9:tableNamet1:t11:columnNames[t1:a]10:schemaNamet3:app}",
            postgresql: r#"
ALTER TABLE "app"."t" ADD CONSTRAINT "pk_t" PRIMARY KEY ("a")
undo ALTER TABLE "app"."t" DROP CONSTRAINT "pk_t""#,
            mysql: "addPrimaryKey.schemaName: bad",
        },
        Case {
            json: r#"{"addUniqueConstraint":{"tableName":"t","columnNames":"a","schemaName":"app"}}"#,
            canonical: "19:addUniqueConstraint{9:tableNamet1:t11:columnNames[t1:a]10:schemaNamet3:app}",
            postgresql: r#"
ALTER TABLE "app"."t" ADD CONSTRAINT "uq_t_a" UNIQUE ("a")
undo ALTER TABLE "app"."t" DROP CONSTRAINT "uq_t_a""#,
            mysql: "addUniqueConstraint.schemaName: bad",
        },
        Case {
            json: r#"{"renameColumn":{"tableName":"t","oldColumnName":"a","newColumnName":"b","schemaName":"PUBLIC"}}"#,
            canonical: "12:renameColumn{9:tableNamet1:t13:oldColumnNamet1:a13:newColumnNamet1:b10:schemaNamet6:PUBLIC}",
            postgresql: r#"
ALTER TABLE "PUBLIC"."t" RENAME COLUMN "a" TO "b"
undo ALTER TABLE "PUBLIC"."t" RENAME COLUMN "b" TO "a""#,
            mysql: "renameColumn.schemaName: bad",
        },
        Case {
            json: r#"{"addDefaultValue":{"tableName":"t","columnName":"a","defaultValue":"x","schemaName":"app"}}"#,
            canonical: "15:addDefaultValue{9:tableNamet1:t10:columnNamet1:a12:defaultValuet1:x10:schemaNamet3:app}",
            postgresql: r#"
ALTER TABLE "app"."t" ALTER COLUMN "a" SET DEFAULT 'x'
undo ALTER TABLE "app"."t" ALTER COLUMN "a" DROP DEFAULT"#,
            mysql: "addDefaultValue.schemaName: bad",
        },
        Case {
            json: r#"{"dropNotNullConstraint":{"tableName":"t","columnName":"a","columnDataType":"int","schemaName":"app"}}"#,
            canonical: "21:dropNotNullConstraint{9:tableNamet1:t10:columnNamet1:a14:columnDataTypet7:INTEGER10:schemaNamet3:app}",
            postgresql: r#"
ALTER TABLE "app"."t" ALTER COLUMN "a" DROP NOT NULL
undo ALTER TABLE "app"."t" ALTER COLUMN "a" SET NOT NULL"#,
            mysql: "dropNotNullConstraint.schemaName: bad",
        },
    ];
    say(&rt, rt.alloc(), &cases)
}

#[test]
fn other_schemas_have_a_fault(rt: HostRuntime) -> Result<(), Fail> {
    let cases = [
        (
            r#"{"createTable":{"tableName":"t","columns":[{"column":{"name":"a","type":"int"}}],"schemaName":"a\tb"}}"#,
            "createTable.schemaName: bad",
        ),
        (
            r#"{"dropColumn":{"tableName":"t","columnName":"a","schemaName":true,"catalogName":"main"}}"#,
            "dropColumn.schemaName: bad",
        ),
        (
            r#"{"dropIndex":{"indexName":"i","tableName":"t","schemaName":"public","catalogName":"main"}}"#,
            "dropIndex.catalogName: bad",
        ),
        (
            r#"{"dropForeignKeyConstraint":{"baseTableName":"t","constraintName":"f","schemaName":"public"}}"#,
            "dropForeignKeyConstraint.schemaName: unknown",
        ),
        (
            r#"{"addForeignKeyConstraint":{"constraintName":"f","baseTableName":"t","baseColumnNames":"a","referencedTableName":"p","referencedColumnNames":"c","schemaName":"public"}}"#,
            "addForeignKeyConstraint.schemaName: unknown",
        ),
        (
            r#"{"createView":{"viewName":"v","selectQuery":"SELECT * FROM t","schemaName":"app"}}"#,
            "createView.schemaName: bad",
        ),
        (
            r#"{"insert":{"tableName":"t","columns":[{"column":{"name":"a","value":"x"}}],"schemaName":"app"}}"#,
            "insert.schemaName: bad",
        ),
    ];
    fail(&rt, rt.alloc(), &cases)
}
