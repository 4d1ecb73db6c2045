use crate::shown::{Case, say};
use std::test::Fail;

#[test]
fn default_names_are_cut_at_a_whole_character(rt: HostRuntime) -> Result<(), Fail> {
    let cases = [
        Case {
            json: r#"{"addPrimaryKey":{"tableName":"nnnnnnnnnnnnnnnnnnnnnnnnnnnnnnnnnnnnnnnnnnnnnnnnnnnnnnnnnnnnnnn","columnNames":"a"}}"#,
            canonical: "13:addPrimaryKey{9:tableNamet63:nnnnnnnnnnnnnnnnnnnnnnnnnnnnnnnnnnnnnnnnnnnnnnnnnnnnnnnnnnnnnnn11:columnNames[t1:a]}",
            postgresql: r#"
ALTER TABLE "nnnnnnnnnnnnnnnnnnnnnnnnnnnnnnnnnnnnnnnnnnnnnnnnnnnnnnnnnnnnnnn" ADD CONSTRAINT "pk_nnnnnnnnnnnnnnnnnnnnnnnnnnnnnnnnnnnnnnnnnnnnnnnnnnnnnnnnnnnn" PRIMARY KEY ("a")
undo ALTER TABLE "nnnnnnnnnnnnnnnnnnnnnnnnnnnnnnnnnnnnnnnnnnnnnnnnnnnnnnnnnnnnnnn" DROP CONSTRAINT "pk_nnnnnnnnnnnnnnnnnnnnnnnnnnnnnnnnnnnnnnnnnnnnnnnnnnnnnnnnnnnn""#,
            mysql: r#"
ALTER TABLE `nnnnnnnnnnnnnnnnnnnnnnnnnnnnnnnnnnnnnnnnnnnnnnnnnnnnnnnnnnnnnnn` ADD PRIMARY KEY (`a`)
undo ALTER TABLE `nnnnnnnnnnnnnnnnnnnnnnnnnnnnnnnnnnnnnnnnnnnnnnnnnnnnnnnnnnnnnnn` DROP PRIMARY KEY"#,
        },
        Case {
            json: r#"{"addUniqueConstraint":{"tableName":"éééééééééééééééééééééééééééééé","columnNames":"a"}}"#,
            canonical: "19:addUniqueConstraint{9:tableNamet60:éééééééééééééééééééééééééééééé11:columnNames[t1:a]}",
            postgresql: r#"
ALTER TABLE "éééééééééééééééééééééééééééééé" ADD CONSTRAINT "uq_éééééééééééééééééééééééééééééé" UNIQUE ("a")
undo ALTER TABLE "éééééééééééééééééééééééééééééé" DROP CONSTRAINT "uq_éééééééééééééééééééééééééééééé""#,
            mysql: r#"
ALTER TABLE `éééééééééééééééééééééééééééééé` ADD CONSTRAINT `uq_éééééééééééééééééééééééééééééé` UNIQUE (`a`)
undo ALTER TABLE `éééééééééééééééééééééééééééééé` DROP INDEX `uq_éééééééééééééééééééééééééééééé`"#,
        },
        Case {
            json: r#"{"createIndex":{"tableName":"néééééééééééééééééééééééééééééé","columns":[{"name":"a"}]}}"#,
            canonical: "11:createIndex{9:tableNamet61:néééééééééééééééééééééééééééééé7:columns[{4:namet1:a}]}",
            postgresql: r#"
CREATE INDEX "ix_nééééééééééééééééééééééééééééé" ON "néééééééééééééééééééééééééééééé" ("a")
undo DROP INDEX "ix_nééééééééééééééééééééééééééééé""#,
            mysql: r#"
CREATE INDEX `ix_nééééééééééééééééééééééééééééé` ON `néééééééééééééééééééééééééééééé` (`a`)
undo DROP INDEX `ix_nééééééééééééééééééééééééééééé` ON `néééééééééééééééééééééééééééééé`"#,
        },
        Case {
            json: r#"{"createIndex":{"tableName":"nn😀😀😀😀😀😀😀😀😀😀😀😀😀😀😀","columns":[{"name":"a"},{"name":"b"}]}}"#,
            canonical: "11:createIndex{9:tableNamet62:nn😀😀😀😀😀😀😀😀😀😀😀😀😀😀😀7:columns[{4:namet1:a}{4:namet1:b}]}",
            postgresql: r#"
CREATE INDEX "ix_nn😀😀😀😀😀😀😀😀😀😀😀😀😀😀" ON "nn😀😀😀😀😀😀😀😀😀😀😀😀😀😀😀" ("a", "b")
undo DROP INDEX "ix_nn😀😀😀😀😀😀😀😀😀😀😀😀😀😀""#,
            mysql: r#"
CREATE INDEX `ix_nn😀😀😀😀😀😀😀😀😀😀😀😀😀😀` ON `nn😀😀😀😀😀😀😀😀😀😀😀😀😀😀😀` (`a`, `b`)
undo DROP INDEX `ix_nn😀😀😀😀😀😀😀😀😀😀😀😀😀😀` ON `nn😀😀😀😀😀😀😀😀😀😀😀😀😀😀😀`"#,
        },
        Case {
            json: r#"{"createIndex":{"tableName":"nnnnnnnnnnnnnnnnnnnnnnnnnnnnnnnnnnnnnnnnnnnnnnnnnnnnnnnnnn","columns":[{"name":"a"}]}}"#,
            canonical: "11:createIndex{9:tableNamet58:nnnnnnnnnnnnnnnnnnnnnnnnnnnnnnnnnnnnnnnnnnnnnnnnnnnnnnnnnn7:columns[{4:namet1:a}]}",
            postgresql: r#"
CREATE INDEX "ix_nnnnnnnnnnnnnnnnnnnnnnnnnnnnnnnnnnnnnnnnnnnnnnnnnnnnnnnnnn_a" ON "nnnnnnnnnnnnnnnnnnnnnnnnnnnnnnnnnnnnnnnnnnnnnnnnnnnnnnnnnn" ("a")
undo DROP INDEX "ix_nnnnnnnnnnnnnnnnnnnnnnnnnnnnnnnnnnnnnnnnnnnnnnnnnnnnnnnnnn_a""#,
            mysql: r#"
CREATE INDEX `ix_nnnnnnnnnnnnnnnnnnnnnnnnnnnnnnnnnnnnnnnnnnnnnnnnnnnnnnnnnn_a` ON `nnnnnnnnnnnnnnnnnnnnnnnnnnnnnnnnnnnnnnnnnnnnnnnnnnnnnnnnnn` (`a`)
undo DROP INDEX `ix_nnnnnnnnnnnnnnnnnnnnnnnnnnnnnnnnnnnnnnnnnnnnnnnnnnnnnnnnnn_a` ON `nnnnnnnnnnnnnnnnnnnnnnnnnnnnnnnnnnnnnnnnnnnnnnnnnnnnnnnnnn`"#,
        },
    ];
    say(&rt, rt.alloc(), &cases)
}
