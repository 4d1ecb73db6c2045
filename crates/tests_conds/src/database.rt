ghost use Rattle.std.specs.Prelude.{◌≡◌, true};
ghost use Rattle.lq_model.specs.Step.{is_statement};

use lq_base::{Dialect, Exec, Items, Text, Tracked};
use lq_model::{By, SqlText, Statement};
use lq_store::{Executor, RunFault};
use std::alloc::Global;
use std::process::Abort;
use std::test::Fail;

/// Two tables of the users' with all that a table may have, an empty one, a view and a sequence; and
/// two tables that are named as the tracking tables are, one of which has as much.
pub const IN_POSTGRESQL: [&str; 13] = [
    "create table p (id int primary key)",
    "create table t (n int, s varchar(9), ok boolean, at timestamp, d decimal(5, 2), constraint u unique (n), constraint f foreign key (n) references p (id))",
    "create index i on t (s)",
    "create table e (a int)",
    "create view v as select s from t where n = 7",
    "create sequence q start with 1 increment by 1",
    "insert into p values (7)",
    "insert into t values (7, 'seven', true, '2024-02-29 10:00:00.007', -7.5)",
    "insert into t values (null, null, null, null, null)",
    "create table \"DATABASECHANGELOG\" (\"ID\" int, constraint k primary key (\"ID\"), constraint c unique (\"ID\"), constraint g foreign key (\"ID\") references p (id))",
    "create index x on \"DATABASECHANGELOG\" (\"ID\")",
    "create view databasechangeloglock as select id from p",
    "create sequence \"DatabaseChangeLog\" start with 1 increment by 1",
];

/// A table with a key and one row, in MySQL.
pub const IN_MYSQL: [&str; 3] = [
    "create table P (id int primary key, s varchar(9))",
    "create view v as select s from P",
    "insert into P values (7, 'seven')",
];

// The statement is let go where nothing else is held.
fn run_statement<E: Executor>(to: &mut E, statement: Statement) -> Result<u64, RunFault>
    requires { is_statement (E.held to.old).dialect statement ≡ true }
    ensures { (E.held to.new).dialect ≡ (E.held to.old).dialect }
{
    to.run(By::Program, &statement)
}

fn run<E: Executor, P: SqlText>(alloc: Global, sql: &P, text: &str, to: &mut E) -> Result<(), Fail>
    requires { (E.held to.old).dialect ≡ P.dialect }
    ensures { (E.held to.new).dialect ≡ P.dialect }
{
    let statement = sql.parse(alloc, text)?;
    run_statement(to, statement)?;
    Ok(())
}

fn run_all<E: Executor, P: SqlText>(
    alloc: Global,
    sql: &P,
    texts: &[&str],
    to: &mut E,
) -> Result<(), Fail>
    requires { (E.held to.old).dialect ≡ P.dialect }
{
    let [text, texts @ ..] = texts else {
        return Ok(());
    };
    run(alloc, sql, text, to)?;
    run_all(alloc, sql, texts, to)
}

/// What conditions are told of: a database in which these statements ran.
pub fn database<E: Executor + Drop, P: SqlText>(
    alloc: Global,
    dialect: Dialect,
    sql: &P,
    texts: &[&str],
) -> Result<E, Fail>
    requires { P.dialect ≡ dialect }
{
    let mut database = E::new(alloc, dialect);
    run_all(alloc, sql, texts, &mut database)?;
    Ok(database)
}

fn text(rt: &impl Abort, alloc: Global, text: &str) -> Text {
    Text::new(alloc, text).expect(rt, "memory")
}

fn tracked(rt: &impl Abort, alloc: Global, id: &str, author: &str, file: &str) -> Tracked {
    Tracked {
        id: text(rt, alloc, id),
        author: text(rt, alloc, author),
        filename: text(rt, alloc, file),
        date: 0,
        order: 1,
        exec: Exec::Executed,
        md5sum: None,
        description: text(rt, alloc, ""),
        comments: text(rt, alloc, ""),
        tag: None,
        tool: text(rt, alloc, ""),
        contexts: text(rt, alloc, ""),
        labels: text(rt, alloc, ""),
        deployment: text(rt, alloc, ""),
    }
}

/// The rows of two changesets that ran.
pub fn rows(rt: &impl Abort, alloc: Global) -> Items<Tracked> {
    let mut rows = Items::new(alloc);
    rows.push(tracked(rt, alloc, "1", "ann", "db/a.json"))
        .expect(rt, "memory");
    rows.push(tracked(rt, alloc, "2", "bob", "db/b.yaml"))
        .expect(rt, "memory");
    rows
}
