use crate::shown::{Case, say};
use std::test::Fail;

#[test]
fn keys_and_indexes_say_their_statements(rt: HostRuntime) -> Result<(), Fail> {
    let cases = [
        Case {
            json: r#"{"addPrimaryKey":{"tableName":"t","columnNames":"a, b"}}"#,
            canonical: "13:addPrimaryKey{9:tableNamet1:t11:columnNames[t1:at1:b]}",
            postgresql: r#"
ALTER TABLE "t" ADD CONSTRAINT "pk_t" PRIMARY KEY ("a", "b")
undo ALTER TABLE "t" DROP CONSTRAINT "pk_t""#,
            mysql: r#"
ALTER TABLE `t` ADD PRIMARY KEY (`a`, `b`)
undo ALTER TABLE `t` DROP PRIMARY KEY"#,
        },
        Case {
            json: r#"{"addPrimaryKey":{"tableName":"t","columnNames":"a","constraintName":"k"}}"#,
            canonical: "13:addPrimaryKey{9:tableNamet1:t11:columnNames[t1:a]14:constraintNamet1:k}",
            postgresql: r#"
ALTER TABLE "t" ADD CONSTRAINT "k" PRIMARY KEY ("a")
undo ALTER TABLE "t" DROP CONSTRAINT "k""#,
            mysql: r#"
ALTER TABLE `t` ADD PRIMARY KEY (`a`)
undo ALTER TABLE `t` DROP PRIMARY KEY"#,
        },
        Case {
            json: r#"{"dropPrimaryKey":{"tableName":"t"}}"#,
            canonical: "14:dropPrimaryKey{9:tableNamet1:t}",
            postgresql: r#"
ALTER TABLE "t" DROP CONSTRAINT "pk_t"
no undo"#,
            mysql: r#"
ALTER TABLE `t` DROP PRIMARY KEY
no undo"#,
        },
        Case {
            json: r#"{"dropPrimaryKey":{"tableName":"t","constraintName":"k"}}"#,
            canonical: "14:dropPrimaryKey{9:tableNamet1:t14:constraintNamet1:k}",
            postgresql: r#"
ALTER TABLE "t" DROP CONSTRAINT "k"
no undo"#,
            mysql: r#"
ALTER TABLE `t` DROP PRIMARY KEY
no undo"#,
        },
        Case {
            json: r#"{"addForeignKeyConstraint":{"constraintName":"f","baseTableName":"t","baseColumnNames":"a,b","referencedTableName":"p","referencedColumnNames":"c , d","onDelete":"CASCADE"}}"#,
            canonical: "23:addForeignKeyConstraint{14:constraintNamet1:f13:baseTableNamet1:t15:baseColumnNames[t1:at1:b]19:referencedTableNamet1:p21:referencedColumnNames[t1:ct1:d]8:onDeletet7:CASCADE}",
            postgresql: r#"
ALTER TABLE "t" ADD CONSTRAINT "f" FOREIGN KEY ("a", "b") REFERENCES "p" ("c", "d") ON DELETE CASCADE
undo ALTER TABLE "t" DROP CONSTRAINT "f""#,
            mysql: r#"
ALTER TABLE `t` ADD CONSTRAINT `f` FOREIGN KEY (`a`, `b`) REFERENCES `p` (`c`, `d`) ON DELETE CASCADE
undo ALTER TABLE `t` DROP FOREIGN KEY `f`"#,
        },
        Case {
            json: r#"{"addForeignKeyConstraint":{"constraintName":"f","baseTableName":"t","baseColumnNames":"a","referencedTableName":"p","referencedColumnNames":"c","onDelete":"NO ACTION"}}"#,
            canonical: "23:addForeignKeyConstraint{14:constraintNamet1:f13:baseTableNamet1:t15:baseColumnNames[t1:a]19:referencedTableNamet1:p21:referencedColumnNames[t1:c]8:onDeletet9:NO ACTION}",
            postgresql: r#"
ALTER TABLE "t" ADD CONSTRAINT "f" FOREIGN KEY ("a") REFERENCES "p" ("c")
undo ALTER TABLE "t" DROP CONSTRAINT "f""#,
            mysql: r#"
ALTER TABLE `t` ADD CONSTRAINT `f` FOREIGN KEY (`a`) REFERENCES `p` (`c`)
undo ALTER TABLE `t` DROP FOREIGN KEY `f`"#,
        },
        Case {
            json: r#"{"dropForeignKeyConstraint":{"baseTableName":"t","constraintName":"f"}}"#,
            canonical: "24:dropForeignKeyConstraint{13:baseTableNamet1:t14:constraintNamet1:f}",
            postgresql: r#"
ALTER TABLE "t" DROP CONSTRAINT "f"
no undo"#,
            mysql: r#"
ALTER TABLE `t` DROP FOREIGN KEY `f`
no undo"#,
        },
        Case {
            json: r#"{"addUniqueConstraint":{"tableName":"t","columnNames":"a,b"}}"#,
            canonical: "19:addUniqueConstraint{9:tableNamet1:t11:columnNames[t1:at1:b]}",
            postgresql: r#"
ALTER TABLE "t" ADD CONSTRAINT "uq_t_a_b" UNIQUE ("a", "b")
undo ALTER TABLE "t" DROP CONSTRAINT "uq_t_a_b""#,
            mysql: r#"
ALTER TABLE `t` ADD CONSTRAINT `uq_t_a_b` UNIQUE (`a`, `b`)
undo ALTER TABLE `t` DROP INDEX `uq_t_a_b`"#,
        },
        Case {
            json: r#"{"addUniqueConstraint":{"tableName":"t","columnNames":"a","constraintName":"u"}}"#,
            canonical: "19:addUniqueConstraint{9:tableNamet1:t11:columnNames[t1:a]14:constraintNamet1:u}",
            postgresql: r#"
ALTER TABLE "t" ADD CONSTRAINT "u" UNIQUE ("a")
undo ALTER TABLE "t" DROP CONSTRAINT "u""#,
            mysql: r#"
ALTER TABLE `t` ADD CONSTRAINT `u` UNIQUE (`a`)
undo ALTER TABLE `t` DROP INDEX `u`"#,
        },
        Case {
            json: r#"{"dropUniqueConstraint":{"tableName":"t","constraintName":"u"}}"#,
            canonical: "20:dropUniqueConstraint{9:tableNamet1:t14:constraintNamet1:u}",
            postgresql: r#"
ALTER TABLE "t" DROP CONSTRAINT "u"
no undo"#,
            mysql: r#"
ALTER TABLE `t` DROP INDEX `u`
no undo"#,
        },
        Case {
            json: r#"{"createIndex":{"indexName":"i","tableName":"t","columns":[{"column":{"name":"a"}},{"name":"b"}],"unique":true}}"#,
            canonical: "11:createIndex{9:indexNamet1:i9:tableNamet1:t7:columns[{4:namet1:a}{4:namet1:b}]6:uniqueb1}",
            postgresql: r#"
CREATE UNIQUE INDEX "i" ON "t" ("a", "b")
undo DROP INDEX "i""#,
            mysql: r#"
CREATE UNIQUE INDEX `i` ON `t` (`a`, `b`)
undo DROP INDEX `i` ON `t`"#,
        },
        Case {
            json: r#"{"createIndex":{"tableName":"t","columns":[{"column":{"name":"a"}},{"column":{"name":"b"}}]}}"#,
            canonical: "11:createIndex{9:tableNamet1:t7:columns[{4:namet1:a}{4:namet1:b}]}",
            postgresql: r#"
CREATE INDEX "ix_t_a_b" ON "t" ("a", "b")
undo DROP INDEX "ix_t_a_b""#,
            mysql: r#"
CREATE INDEX `ix_t_a_b` ON `t` (`a`, `b`)
undo DROP INDEX `ix_t_a_b` ON `t`"#,
        },
        Case {
            json: r#"{"dropIndex":{"indexName":"i","tableName":"t"}}"#,
            canonical: "9:dropIndex{9:indexNamet1:i9:tableNamet1:t}",
            postgresql: r#"
DROP INDEX "i"
no undo"#,
            mysql: r#"
DROP INDEX `i` ON `t`
no undo"#,
        },
    ];
    say(&rt, rt.alloc(), &cases)
}
