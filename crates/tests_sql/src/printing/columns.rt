use super::Maker;
use lq_base::Kind;
use lq_model::Statement;
use std::process::Abort;

fn modified<R: Abort>(make: &Maker<'_, R>, kind: Kind, nullable: bool) -> Statement {
    Statement::Modify {
        table: make.name("t"),
        column: make.name("c"),
        kind,
        nullable,
    }
}

fn with_default<R: Abort>(make: &Maker<'_, R>) -> Statement {
    Statement::SetDefault {
        table: make.name("t"),
        column: make.name("c"),
        value: make.text("it's \\"),
    }
}

#[test]
fn prints_columns(rt: HostRuntime) {
    let make = Maker::new(&rt, rt.alloc());
    let (table, column) = (make.name("t"), make.column("c", Kind::Text, true));
    let wanted = "ALTER TABLE \"t\" ADD COLUMN \"c\" TEXT";
    make.pg(Statement::AddColumn { table, column }, wanted);
    let (table, column) = make.pair("t", "c");
    let wanted = "ALTER TABLE \"t\" DROP COLUMN \"c\"";
    make.pg(Statement::DropColumn { table, column }, wanted);
    let (table, column) = make.pair("t", "c");
    let to = make.name("d");
    let wanted = "ALTER TABLE `t` RENAME COLUMN `c` TO `d`";
    make.my(Statement::RenameColumn { table, column, to }, wanted)
}

#[test]
fn prints_changes_of_columns(rt: HostRuntime) {
    let make = Maker::new(&rt, rt.alloc());
    let (table, column) = make.pair("t", "c");
    let wanted = "ALTER TABLE \"t\" ALTER COLUMN \"c\" SET NOT NULL";
    make.pg(Statement::SetNotNull { table, column }, wanted);
    let (table, column) = make.pair("t", "c");
    let wanted = "ALTER TABLE \"t\" ALTER COLUMN \"c\" DROP NOT NULL";
    make.pg(Statement::DropNotNull { table, column }, wanted);
    let wanted = "ALTER TABLE `t` MODIFY `c` BOOLEAN NOT NULL";
    make.my(modified(&make, Kind::Boolean, false), wanted);
    let wanted = "ALTER TABLE `t` MODIFY `c` INT NULL";
    make.my(modified(&make, Kind::Int, true), wanted);
    let wanted = "ALTER TABLE `t` ALTER COLUMN `c` SET DEFAULT 'it''s \\\\'";
    make.my(with_default(&make), wanted);
    let wanted = "ALTER TABLE \"t\" ALTER COLUMN \"c\" SET DEFAULT 'it''s \\'";
    make.pg(with_default(&make), wanted);
    let (table, column) = make.pair("t", "c");
    let wanted = "ALTER TABLE \"t\" ALTER COLUMN \"c\" DROP DEFAULT";
    make.pg(Statement::DropDefault { table, column }, wanted)
}
