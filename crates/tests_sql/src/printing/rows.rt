use super::Maker;
use lq_base::{Items, Literal, Name};
use lq_model::{Op, Statement, Test};
use std::process::Abort;

const LOCK: &str = "DATABASECHANGELOGLOCK";

fn insertion<R: Abort>(make: &Maker<'_, R>, table: &str, columns: Items<Name>) -> Statement {
    let values = make.and(make.one(Literal::Int(1)), Literal::Bool(false));
    Statement::Insert {
        table: make.name(table),
        columns,
        values: make.and(make.and(values, Literal::Null), Literal::Null),
    }
}

#[test]
fn prints_insertions(rt: HostRuntime) {
    let make = Maker::new(&rt, rt.alloc());
    let columns = make.and(make.names("ID", "LOCKED"), make.name("LOCKGRANTED"));
    let columns = make.and(columns, make.name("LOCKEDBY"));
    let wanted =
        "INSERT INTO \"DATABASECHANGELOGLOCK\" (\"ID\", \"LOCKED\", \"LOCKGRANTED\", \"LOCKEDBY\") VALUES (1, FALSE, NULL, NULL)";
    make.pg(insertion(&make, LOCK, columns), wanted);
    let wanted = "INSERT INTO `t` VALUES (1, FALSE, NULL, NULL)";
    make.my(insertion(&make, "t", Items::new(make.alloc)), wanted)
}

fn taken<R: Abort>(make: &Maker<'_, R>) -> Items<(Name, Literal)> {
    let locked = (make.name("LOCKED"), Literal::Bool(true));
    let granted = (
        make.name("LOCKGRANTED"),
        make.text("1970-01-01 00:00:01.000"),
    );
    let by = (make.name("LOCKEDBY"), make.text("ci"));
    make.and(make.and(make.one(locked), granted), by)
}

#[test]
fn prints_updates(rt: HostRuntime) {
    let make = Maker::new(&rt, rt.alloc());
    let (table, sets) = (make.name(LOCK), taken(&make));
    let test = Some(make.compare("ID", Op::Eq, Literal::Int(1)));
    let wanted =
        "UPDATE \"DATABASECHANGELOGLOCK\" SET \"LOCKED\" = TRUE, \"LOCKGRANTED\" = '1970-01-01 00:00:01.000', \"LOCKEDBY\" = 'ci' WHERE \"ID\" = 1";
    make.pg(Statement::Update { table, sets, test }, wanted)
}

fn row_of<R: Abort>(make: &Maker<'_, R>) -> Test {
    let id = make.compare("ID", Op::Eq, make.text("1"));
    let author = make.compare("AUTHOR", Op::Eq, make.text("ann"));
    let file = make.compare("FILENAME", Op::Eq, make.text("db/r1.json"));
    make.both(make.both(id, author), file)
}

#[test]
fn prints_deletions(rt: HostRuntime) {
    let make = Maker::new(&rt, rt.alloc());
    let (table, test) = (make.name("DATABASECHANGELOG"), Some(row_of(&make)));
    let wanted =
        "DELETE FROM \"DATABASECHANGELOG\" WHERE ((\"ID\" = '1' AND \"AUTHOR\" = 'ann') AND \"FILENAME\" = 'db/r1.json')";
    make.pg(Statement::Delete { table, test }, wanted);
    let (table, test) = (make.name("t"), None);
    make.my(Statement::Delete { table, test }, "DELETE FROM `t`")
}
