use crate::shown::{Case, say};
use std::test::Fail;

#[test]
fn rows_and_the_rest_say_their_statements(rt: HostRuntime) -> Result<(), Fail> {
    let cases = [
        Case {
            json: r#"{"insert":{"tableName":"t","columns":[{"column":{"name":"a","valueNumeric":"-7.50"}},{"column":{"name":"b","valueBoolean":true}},{"column":{"name":"c","valueDate":"2024-02-29T10:00:00"}},{"column":{"name":"d","value":"1"}},{"name":"e"}]}}"#,
            canonical: "6:insert{9:tableNamet1:t7:columns[{4:namet1:a12:valueNumerict5:-7.50}{4:namet1:b12:valueBooleanb1}{4:namet1:c9:valueDatet19:2024-02-29T10:00:00}{4:namet1:d5:valuet1:1}{4:namet1:e}]}",
            postgresql: r#"
INSERT INTO "t" ("a", "b", "c", "d", "e") VALUES (-7.50, TRUE, '2024-02-29T10:00:00', '1', NULL)
no undo"#,
            mysql: r#"
INSERT INTO `t` (`a`, `b`, `c`, `d`, `e`) VALUES (-7.50, TRUE, '2024-02-29T10:00:00', '1', NULL)
no undo"#,
        },
        Case {
            json: r#"{"update":{"tableName":"t","columns":[{"column":{"name":"a","value":"it's \\"}},{"column":{"name":"b"}}],"where":"id = 1 and b is null"}}"#,
            canonical: r#"6:update{9:tableNamet1:t7:columns[{4:namet1:a5:valuet6:it's \}{4:namet1:b}]5:wheret20:id = 1 and b is null}"#,
            postgresql: r#"
UPDATE "t" SET "a" = 'it''s \', "b" = NULL WHERE ("id" = 1 AND "b" IS NULL)
no undo"#,
            mysql: r#"
UPDATE `t` SET `a` = 'it''s \\', `b` = NULL WHERE (`id` = 1 AND `b` IS NULL)
no undo"#,
        },
        Case {
            json: r#"{"update":{"tableName":"t","columns":[{"name":"a","valueNumeric":12}]}}"#,
            canonical: "6:update{9:tableNamet1:t7:columns[{4:namet1:a12:valueNumericn2:12}]}",
            postgresql: r#"
UPDATE "t" SET "a" = 12
no undo"#,
            mysql: r#"
UPDATE `t` SET `a` = 12
no undo"#,
        },
        Case {
            json: r#"{"delete":{"tableName":"t","where":"a <> 'x'"}}"#,
            canonical: "6:delete{9:tableNamet1:t5:wheret8:a <> 'x'}",
            postgresql: r#"
DELETE FROM "t" WHERE "a" <> 'x'
no undo"#,
            mysql: r#"
DELETE FROM `t` WHERE `a` <> 'x'
no undo"#,
        },
        Case {
            json: r#"{"delete":{"tableName":"t"}}"#,
            canonical: "6:delete{9:tableNamet1:t}",
            postgresql: r#"
DELETE FROM "t"
no undo"#,
            mysql: r#"
DELETE FROM `t`
no undo"#,
        },
        Case {
            json: r#"{"sql":{"sql":"delete from t; drop table t;","stripComments":true}}"#,
            canonical: "3:sql{3:sqlt28:delete from t; drop table t;15:splitStatementsb112:endDelimitert1:;}",
            postgresql: r#"
DELETE FROM "t"
DROP TABLE "t"
no undo"#,
            mysql: r#"
DELETE FROM `t`
DROP TABLE `t`
no undo"#,
        },
        Case {
            json: r#"{"sql":{"sql":"drop table t GO drop table u","endDelimiter":"GO"}}"#,
            canonical: "3:sql{3:sqlt28:drop table t GO drop table u15:splitStatementsb112:endDelimitert2:GO}",
            postgresql: r#"
DROP TABLE "t"
DROP TABLE "u"
no undo"#,
            mysql: r#"
DROP TABLE `t`
DROP TABLE `u`
no undo"#,
        },
        Case {
            json: r#"{"sql":{"sql":"alter table t add foreign key (a) references p (b);","splitStatements":false}}"#,
            canonical: "3:sql{3:sqlt51:alter table t add foreign key (a) references p (b);15:splitStatementsb012:endDelimitert1:;}",
            postgresql: r#"
ALTER TABLE "t" ADD CONSTRAINT "fk_t_a" FOREIGN KEY ("a") REFERENCES "p" ("b")
no undo"#,
            mysql: r#"
ALTER TABLE `t` ADD CONSTRAINT `fk_t_a` FOREIGN KEY (`a`) REFERENCES `p` (`b`)
no undo"#,
        },
        Case {
            json: r#"{"tagDatabase":{"tag":"v1"}}"#,
            canonical: "11:tagDatabase{3:tagt2:v1}",
            postgresql: "",
            mysql: "",
        },
        Case {
            json: r#"{"empty":{}}"#,
            canonical: "5:empty{}",
            postgresql: "",
            mysql: "",
        },
    ];
    say(&rt, rt.alloc(), &cases)
}
