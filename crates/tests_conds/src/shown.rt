ghost use Rattle.std.specs.Prelude.{◌≡◌};

use crate::database::{IN_MYSQL, IN_POSTGRESQL, database, rows};
use lq_base::{Dialect, KindFault, NoMemory, Text, Tracked};
use lq_cond::{Cond, CondFault, OnFail, Reaction, check};
use lq_engine::Engine;
use lq_model::{Look, SqlText};
use lq_my::My;
use lq_pg::Pg;
use lq_store::Executor;
use lq_tree::{TreeFault, read_json};
use std::alloc::Global;
use std::process::Abort;
use std::test::Fail;

// Whether it holds, or the reason for which that cannot be told.
fn verdict(checked: Result<bool, CondFault>) -> &'static str {
    match checked {
        Ok(true) => "holds",
        Ok(false) => "fails",
        Err(CondFault::Error(reason)) => reason.text(),
        Err(CondFault::OutOfMemory) => "out of memory",
    }
}

fn told<K: Look>(
    alloc: Global,
    dialect: Dialect,
    read: Result<Reaction, KindFault>,
    look: &K,
    rows: &[Tracked],
) -> &'static str {
    match read {
        Ok(reaction) => verdict(check(alloc, &reaction.cond, dialect, look, rows)),
        Err(_) => "not read",
    }
}

fn told_by<K: Look, P: SqlText>(
    alloc: Global,
    dialect: Dialect,
    sql: &P,
    json: &str,
    look: &K,
    rows: &[Tracked],
) -> Result<&'static str, Fail>
    requires { P.dialect ≡ dialect }
{
    let read = read_by(alloc, dialect, sql, json)?;
    Ok(told(alloc, dialect, read, look, rows))
}

fn all_told<K: Look, P: SqlText>(
    rt: &impl Abort,
    alloc: Global,
    dialect: Dialect,
    sql: &P,
    look: &K,
    rows: &[Tracked],
    cases: &[(&str, &str)],
) -> Result<(), Fail>
    requires { P.dialect ≡ dialect }
{
    for (json, wanted) in cases {
        let told = told_by(alloc, dialect, sql, json, look, rows)?;
        assert_eq!(rt; told, *wanted);
    }
    Ok(())
}

fn told_of_database<E: Executor + Drop, P: SqlText>(
    rt: &impl Abort,
    alloc: Global,
    dialect: Dialect,
    sql: &P,
    texts: &[&str],
    cases: &[(&str, &str)],
) -> Result<(), Fail>
    requires { P.dialect ≡ dialect }
{
    let database: E = database(alloc, dialect, sql, texts)?;
    let rows = rows(rt, alloc);
    all_told(rt, alloc, dialect, sql, &database, rows.as_slice(), cases)
}

/// What `preConditions` that are given as JSON tell of the database of these tests: `holds`, `fails`,
/// or the text of the reason for which it is not told.
pub fn tell(rt: &impl Abort, alloc: Global, cases: &[(&str, &str)]) -> Result<(), Fail> {
    let dialect = Dialect::Postgresql;
    told_of_database::<Engine, Pg>(rt, alloc, dialect, &Pg, &IN_POSTGRESQL, cases)
}

/// The same in MySQL.
pub fn tell_in_mysql(rt: &impl Abort, alloc: Global, cases: &[(&str, &str)]) -> Result<(), Fail> {
    told_of_database::<Engine, My>(rt, alloc, Dialect::Mysql, &My, &IN_MYSQL, cases)
}

fn reaction_name(reaction: OnFail) -> &'static str {
    match reaction {
        OnFail::Halt => "HALT",
        OnFail::Continue => "CONTINUE",
        OnFail::MarkRan => "MARK_RAN",
        OnFail::Warn => "WARN",
    }
}

// `PLACE: RULE`.
fn append_fault(fault: &KindFault, to: &mut Text) -> Result<(), NoMemory> {
    match fault {
        KindFault::Missing(path) => to.push_all(&[path.as_str(), ": missing"]),
        KindFault::Unknown(path) => to.push_all(&[path.as_str(), ": unknown"]),
        KindFault::Bad(path) => to.push_all(&[path.as_str(), ": bad"]),
        KindFault::NotFor { path, dialect } => {
            to.push_all(&[path.as_str(), ": not for "])?;
            to.push_str(dialect.text())
        }
        KindFault::OutOfMemory => Err(NoMemory),
    }
}

// Here alone a reaction is taken apart.
fn append_read(read: Result<Reaction, KindFault>, to: &mut Text) -> Result<(), NoMemory> {
    match read {
        Ok(reaction) => {
            let on_fail = reaction_name(reaction.on_fail);
            to.push_all(&[on_fail, " ", reaction_name(reaction.on_error)])
        }
        Err(fault) => append_fault(&fault, to),
    }
}

fn read_by<P: SqlText>(
    alloc: Global,
    dialect: Dialect,
    sql: &P,
    json: &str,
) -> Result<Result<Reaction, KindFault>, TreeFault>
    requires { P.dialect ≡ dialect }
{
    let node = read_json(alloc, json.as_bytes())?;
    Ok(Cond::read(alloc, &node, dialect, sql))
}

fn shown(alloc: Global, read: Result<Reaction, KindFault>) -> Result<Text, NoMemory> {
    let mut to = Text::new(alloc, "")?;
    match append_read(read, &mut to) {
        Ok(()) => Ok(to),
        Err(NoMemory) => Err(NoMemory),
    }
}

fn all_read<P: SqlText>(
    rt: &impl Abort,
    alloc: Global,
    dialect: Dialect,
    sql: &P,
    cases: &[(&str, &str)],
) -> Result<(), Fail>
    requires { P.dialect ≡ dialect }
{
    for (json, wanted) in cases {
        let read = read_by(alloc, dialect, sql, json)?;
        let shown = shown(alloc, read)?;
        assert_eq!(rt; shown.as_str(), *wanted);
    }
    Ok(())
}

/// The two reactions that `preConditions` state, that to a failure first, or their fault.
pub fn are_read(rt: &impl Abort, alloc: Global, cases: &[(&str, &str)]) -> Result<(), Fail> {
    all_read(rt, alloc, Dialect::Postgresql, &Pg, cases)
}
