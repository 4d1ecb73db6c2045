use crate::shown::{Case, say};
use std::test::Fail;

#[test]
fn columns_say_their_statements(rt: HostRuntime) -> Result<(), Fail> {
    let cases = [
        Case {
            json: r#"{"addColumn":{"tableName":"t","columns":[{"column":{"name":"a","type":"int","valueNumeric":"7","constraints":{"nullable":false,"unique":true}}},{"column":{"name":"b","type":"varchar(9)","defaultValue":"x","constraints":{"nullable":false,"unique":true,"uniqueConstraintName":"uq_b","references":"p(id)","foreignKeyName":"fk_b"}}},{"name":"c","type":"boolean","valueBoolean":true}]}}"#,
            canonical: "9:addColumn{9:tableNamet1:t7:columns[{4:namet1:a4:typet7:INTEGER11:constraints{8:nullableb06:uniqueb1}12:valueNumericn1:7}{4:namet1:b4:typet10:VARCHAR(9)12:defaultValuet1:x11:constraints{8:nullableb06:uniqueb120:uniqueConstraintNamet4:uq_b10:referencest5:p(id)14:foreignKeyNamet4:fk_b}}{4:namet1:c4:typet7:BOOLEAN12:valueBooleanb1}]}",
            postgresql: r#"
ALTER TABLE "t" ADD COLUMN "a" INTEGER
UPDATE "t" SET "a" = 7
ALTER TABLE "t" ALTER COLUMN "a" SET NOT NULL
ALTER TABLE "t" ADD CONSTRAINT "uq_t_a" UNIQUE ("a")
ALTER TABLE "t" ADD COLUMN "b" VARCHAR(9) NOT NULL DEFAULT 'x'
ALTER TABLE "t" ADD CONSTRAINT "uq_b" UNIQUE ("b")
ALTER TABLE "t" ADD CONSTRAINT "fk_b" FOREIGN KEY ("b") REFERENCES "p" ("id")
ALTER TABLE "t" ADD COLUMN "c" BOOLEAN
UPDATE "t" SET "c" = TRUE
undo ALTER TABLE "t" DROP COLUMN "c"
undo ALTER TABLE "t" DROP CONSTRAINT "fk_b"
undo ALTER TABLE "t" DROP CONSTRAINT "uq_b"
undo ALTER TABLE "t" DROP COLUMN "b"
undo ALTER TABLE "t" DROP CONSTRAINT "uq_t_a"
undo ALTER TABLE "t" DROP COLUMN "a""#,
            mysql: r#"
ALTER TABLE `t` ADD COLUMN `a` INT
UPDATE `t` SET `a` = 7
ALTER TABLE `t` MODIFY `a` INT NOT NULL
ALTER TABLE `t` ADD CONSTRAINT `uq_t_a` UNIQUE (`a`)
ALTER TABLE `t` ADD COLUMN `b` VARCHAR(9) NOT NULL DEFAULT 'x'
ALTER TABLE `t` ADD CONSTRAINT `uq_b` UNIQUE (`b`)
ALTER TABLE `t` ADD CONSTRAINT `fk_b` FOREIGN KEY (`b`) REFERENCES `p` (`id`)
ALTER TABLE `t` ADD COLUMN `c` BOOLEAN
UPDATE `t` SET `c` = TRUE
undo ALTER TABLE `t` DROP COLUMN `c`
undo ALTER TABLE `t` DROP FOREIGN KEY `fk_b`
undo ALTER TABLE `t` DROP INDEX `uq_b`
undo ALTER TABLE `t` DROP COLUMN `b`
undo ALTER TABLE `t` DROP INDEX `uq_t_a`
undo ALTER TABLE `t` DROP COLUMN `a`"#,
        },
        Case {
            json: r#"{"dropColumn":{"tableName":"t","columnName":"a"}}"#,
            canonical: "10:dropColumn{9:tableNamet1:t10:columnNamet1:a}",
            postgresql: r#"
ALTER TABLE "t" DROP COLUMN "a"
no undo"#,
            mysql: r#"
ALTER TABLE `t` DROP COLUMN `a`
no undo"#,
        },
        Case {
            json: r#"{"renameColumn":{"tableName":"t","oldColumnName":"a","newColumnName":"b","columnDataType":"int"}}"#,
            canonical: "12:renameColumn{9:tableNamet1:t13:oldColumnNamet1:a13:newColumnNamet1:b14:columnDataTypet7:INTEGER}",
            postgresql: r#"
ALTER TABLE "t" RENAME COLUMN "a" TO "b"
undo ALTER TABLE "t" RENAME COLUMN "b" TO "a""#,
            mysql: r#"
ALTER TABLE `t` RENAME COLUMN `a` TO `b`
undo ALTER TABLE `t` RENAME COLUMN `b` TO `a`"#,
        },
        Case {
            json: r#"{"addNotNullConstraint":{"tableName":"t","columnName":"a","columnDataType":"varchar(3)","defaultNullValue":"x"}}"#,
            canonical: "20:addNotNullConstraint{9:tableNamet1:t10:columnNamet1:a14:columnDataTypet10:VARCHAR(3)16:defaultNullValuet1:x}",
            postgresql: r#"
UPDATE "t" SET "a" = 'x' WHERE "a" IS NULL
ALTER TABLE "t" ALTER COLUMN "a" SET NOT NULL
undo ALTER TABLE "t" ALTER COLUMN "a" DROP NOT NULL"#,
            mysql: r#"
UPDATE `t` SET `a` = 'x' WHERE `a` IS NULL
ALTER TABLE `t` MODIFY `a` VARCHAR(3) NOT NULL
undo ALTER TABLE `t` MODIFY `a` VARCHAR(3) NULL"#,
        },
        Case {
            json: r#"{"addNotNullConstraint":{"tableName":"t","columnName":"a"}}"#,
            canonical: "20:addNotNullConstraint{9:tableNamet1:t10:columnNamet1:a}",
            postgresql: r#"
ALTER TABLE "t" ALTER COLUMN "a" SET NOT NULL
undo ALTER TABLE "t" ALTER COLUMN "a" DROP NOT NULL"#,
            mysql: "addNotNullConstraint.columnDataType: missing",
        },
        Case {
            json: r#"{"dropNotNullConstraint":{"tableName":"t","columnName":"a","columnDataType":"timestamp"}}"#,
            canonical: "21:dropNotNullConstraint{9:tableNamet1:t10:columnNamet1:a14:columnDataTypet9:TIMESTAMP}",
            postgresql: r#"
ALTER TABLE "t" ALTER COLUMN "a" DROP NOT NULL
undo ALTER TABLE "t" ALTER COLUMN "a" SET NOT NULL"#,
            mysql: r#"
ALTER TABLE `t` MODIFY `a` DATETIME(3) NULL
undo ALTER TABLE `t` MODIFY `a` DATETIME(3) NOT NULL"#,
        },
        Case {
            json: r#"{"addDefaultValue":{"tableName":"t","columnName":"a","columnDataType":"int","defaultValueNumeric":-5}}"#,
            canonical: "15:addDefaultValue{9:tableNamet1:t10:columnNamet1:a14:columnDataTypet7:INTEGER19:defaultValueNumericn2:-5}",
            postgresql: r#"
ALTER TABLE "t" ALTER COLUMN "a" SET DEFAULT -5
undo ALTER TABLE "t" ALTER COLUMN "a" DROP DEFAULT"#,
            mysql: r#"
ALTER TABLE `t` ALTER COLUMN `a` SET DEFAULT -5
undo ALTER TABLE `t` ALTER COLUMN `a` DROP DEFAULT"#,
        },
        Case {
            json: r#"{"addDefaultValue":{"tableName":7,"columnName":true,"defaultValueBoolean":"true"}}"#,
            canonical: "15:addDefaultValue{9:tableNamet1:710:columnNamet4:true19:defaultValueBooleanb1}",
            postgresql: r#"
ALTER TABLE "7" ALTER COLUMN "true" SET DEFAULT TRUE
undo ALTER TABLE "7" ALTER COLUMN "true" DROP DEFAULT"#,
            mysql: r#"
ALTER TABLE `7` ALTER COLUMN `true` SET DEFAULT TRUE
undo ALTER TABLE `7` ALTER COLUMN `true` DROP DEFAULT"#,
        },
        Case {
            json: r#"{"dropDefaultValue":{"tableName":"t","columnName":"a","columnDataType":"bool"}}"#,
            canonical: "16:dropDefaultValue{9:tableNamet1:t10:columnNamet1:a14:columnDataTypet7:BOOLEAN}",
            postgresql: r#"
ALTER TABLE "t" ALTER COLUMN "a" DROP DEFAULT
no undo"#,
            mysql: r#"
ALTER TABLE `t` ALTER COLUMN `a` DROP DEFAULT
no undo"#,
        },
    ];
    say(&rt, rt.alloc(), &cases)
}
