use super::Maker;
use lq_model::{Index, Query, Statement, Wanted};
use std::process::Abort;

fn indexed<R: Abort>(make: &Maker<'_, R>, table: &str, text: &str, unique: bool) -> Statement {
    let index = Index {
        name: make.name(text),
        columns: make.one(make.name("team_id")),
        unique,
    };
    let table = make.name(table);
    Statement::CreateIndex { table, index }
}

#[test]
fn prints_indexes(rt: HostRuntime) {
    let make = Maker::new(&rt, rt.alloc());
    let wanted = "CREATE INDEX \"ix_player_team\" ON \"player\" (\"team_id\")";
    make.pg(indexed(&make, "player", "ix_player_team", false), wanted);
    let wanted = "CREATE UNIQUE INDEX `ix` ON `t` (`team_id`)";
    make.my(indexed(&make, "t", "ix", true), wanted);
    let (name, table) = (make.name("ix_player_team"), None);
    let wanted = "DROP INDEX \"ix_player_team\"";
    make.pg(Statement::DropIndex { name, table }, wanted);
    let (name, table) = (make.name("ix"), Some(make.name("t")));
    let wanted = "DROP INDEX `ix` ON `t`";
    make.my(Statement::DropIndex { name, table }, wanted)
}

fn viewed<R: Abort>(make: &Maker<'_, R>, replace: bool) -> Statement {
    let query = Query {
        wanted: Wanted::Columns(make.one(make.name("id"))),
        table: make.name("team"),
        test: None,
    };
    Statement::CreateView {
        view: make.name("v"),
        query,
        replace,
    }
}

#[test]
fn prints_views(rt: HostRuntime) {
    let make = Maker::new(&rt, rt.alloc());
    let wanted = "CREATE VIEW \"v\" AS SELECT \"id\" FROM \"team\"";
    make.pg(viewed(&make, false), wanted);
    let wanted = "CREATE OR REPLACE VIEW `v` AS SELECT `id` FROM `team`";
    make.my(viewed(&make, true), wanted);
    let view = make.name("v");
    make.pg(Statement::DropView { view }, "DROP VIEW \"v\"");
    let (view, to) = make.pair("v", "w");
    let wanted = "ALTER VIEW \"v\" RENAME TO \"w\"";
    make.pg(Statement::RenameView { view, to }, wanted)
}

fn sequence<R: Abort>(make: &Maker<'_, R>) -> Statement {
    Statement::CreateSequence {
        name: make.name("s"),
        start: 10,
        step: -2,
    }
}

#[test]
fn prints_sequences(rt: HostRuntime) {
    let make = Maker::new(&rt, rt.alloc());
    let wanted = "CREATE SEQUENCE \"s\" START WITH 10 INCREMENT BY -2";
    make.pg(sequence(&make), wanted);
    let name = make.name("s");
    make.pg(Statement::DropSequence { name }, "DROP SEQUENCE \"s\"");
    let (name, to) = make.pair("s", "r");
    let wanted = "ALTER SEQUENCE \"s\" RENAME TO \"r\"";
    make.pg(Statement::RenameSequence { name, to }, wanted)
}

#[test]
fn prints_schemas(rt: HostRuntime) {
    let make = Maker::new(&rt, rt.alloc());
    let table = make.within("app", "t");
    make.pg(Statement::DropTable { table }, "DROP TABLE \"app\".\"t\"");
    let table = make.within("public", "t");
    make.pg(Statement::DropTable { table }, "DROP TABLE \"t\"");
    let (name, table) = (make.within("a\"b", "ix"), None);
    let wanted = "DROP INDEX \"a\"\"b\".\"ix\"";
    make.pg(Statement::DropIndex { name, table }, wanted);
    let (table, to) = (make.within("app", "t"), make.within("app", "u"));
    let wanted = "ALTER TABLE \"app\".\"t\" RENAME TO \"u\"";
    make.pg(Statement::RenameTable { table, to }, wanted)
}
