use crate::shown::{Case, say};
use std::test::Fail;

#[test]
fn views_and_sequences_say_their_statements(rt: HostRuntime) -> Result<(), Fail> {
    let cases = [
        Case {
            json: r#"{"createView":{"viewName":"v","selectQuery":"select a, b from t where a > 1 or not b is null;","replaceIfExists":true}}"#,
            canonical: "10:createView{8:viewNamet1:v11:selectQueryt48:select a, b from t where a > 1 or not b is null;15:replaceIfExistsb1}",
            postgresql: r#"
CREATE OR REPLACE VIEW "v" AS SELECT "a", "b" FROM "t" WHERE ("a" > 1 OR (NOT "b" IS NULL))
undo DROP VIEW "v""#,
            mysql: r#"
CREATE OR REPLACE VIEW `v` AS SELECT `a`, `b` FROM `t` WHERE (`a` > 1 OR (NOT `b` IS NULL))
undo DROP VIEW `v`"#,
        },
        Case {
            json: r#"{"createView":{"viewName":"v","selectQuery":"SELECT * FROM T"}}"#,
            canonical: "10:createView{8:viewNamet1:v11:selectQueryt15:SELECT * FROM T}",
            postgresql: r#"
CREATE VIEW "v" AS SELECT * FROM "t"
undo DROP VIEW "v""#,
            mysql: r#"
CREATE VIEW `v` AS SELECT * FROM `T`
undo DROP VIEW `v`"#,
        },
        Case {
            json: r#"{"dropView":{"viewName":"v"}}"#,
            canonical: "8:dropView{8:viewNamet1:v}",
            postgresql: r#"
DROP VIEW "v"
no undo"#,
            mysql: r#"
DROP VIEW `v`
no undo"#,
        },
        Case {
            json: r#"{"renameView":{"oldViewName":"v","newViewName":"w"}}"#,
            canonical: "10:renameView{11:oldViewNamet1:v11:newViewNamet1:w}",
            postgresql: r#"
ALTER VIEW "v" RENAME TO "w"
undo ALTER VIEW "w" RENAME TO "v""#,
            mysql: r#"
RENAME TABLE `v` TO `w`
undo RENAME TABLE `w` TO `v`"#,
        },
        Case {
            json: r#"{"createSequence":{"sequenceName":"s"}}"#,
            canonical: "14:createSequence{12:sequenceNamet1:s10:startValuen1:111:incrementByn1:1}",
            postgresql: r#"
CREATE SEQUENCE "s" START WITH 1 INCREMENT BY 1
undo DROP SEQUENCE "s""#,
            mysql: "createSequence: not for mysql",
        },
        Case {
            json: r#"{"createSequence":{"incrementBy":-2,"startValue":0,"sequenceName":"s"}}"#,
            canonical: "14:createSequence{12:sequenceNamet1:s10:startValuen1:011:incrementByn2:-2}",
            postgresql: r#"
CREATE SEQUENCE "s" START WITH 0 INCREMENT BY -2
undo DROP SEQUENCE "s""#,
            mysql: "createSequence: not for mysql",
        },
        Case {
            json: r#"{"dropSequence":{"sequenceName":"s"}}"#,
            canonical: "12:dropSequence{12:sequenceNamet1:s}",
            postgresql: r#"
DROP SEQUENCE "s"
no undo"#,
            mysql: "dropSequence: not for mysql",
        },
        Case {
            json: r#"{"renameSequence":{"oldSequenceName":"s","newSequenceName":"r"}}"#,
            canonical: "14:renameSequence{15:oldSequenceNamet1:s15:newSequenceNamet1:r}",
            postgresql: r#"
ALTER SEQUENCE "s" RENAME TO "r"
undo ALTER SEQUENCE "r" RENAME TO "s""#,
            mysql: "renameSequence: not for mysql",
        },
    ];
    say(&rt, rt.alloc(), &cases)
}
