ghost use Rattle.std.specs.Prelude.{◌≡◌};

use crate::shown::show;
use lq_base::{Dialect, Reason};
use lq_engine::Engine;
use lq_model::{By, ParseFault, SqlText};
use lq_my::My;
use lq_pg::Pg;
use lq_store::{Executor, RunFault};
use std::alloc::Global;
use std::test::Fail;

#[derive(Clone, Copy)]
enum Ran {
    Changed(u64),
    Refused(Reason),
    NotSql,
    OutOfMemory,
}

// Runs a user's text.
fn run<P: SqlText, E: Executor>(alloc: Global, sql: &P, engine: &mut E, text: &str) -> Ran
    requires { (E.held engine.old).dialect ≡ P.dialect }
    ensures { (E.held engine.new).dialect ≡ P.dialect }
{
    match sql.parse(alloc, text) {
        Ok(statement) => match engine.run(By::User, &statement) {
            Ok(count) => Ran::Changed(count),
            Err(RunFault::Refused(reason)) => Ran::Refused(reason),
            Err(RunFault::OutOfMemory) => Ran::OutOfMemory,
        },
        Err(ParseFault::NotSql) => Ran::NotSql,
        Err(ParseFault::OutOfMemory) => Ran::OutOfMemory,
    }
}

// Runs texts with `;` between, up to the first that does not run.
fn run_all<P: SqlText, E: Executor>(alloc: Global, sql: &P, engine: &mut E, texts: &str) -> bool
    requires { (E.held engine.old).dialect ≡ P.dialect }
    ensures { (E.held engine.new).dialect ≡ P.dialect }
{
    for text in texts.split(';') {
        match run(alloc, sql, engine, text) {
            Ran::Changed(_) => {}
            _ => return false,
        }
    }
    true
}

fn describe<E: Executor>(alloc: Global, engine: &E, ran: Ran) -> Result<String, Fail> {
    match ran {
        Ran::Refused(reason) => Ok(String::from_str(alloc, reason.text())?),
        Ran::NotSql => Ok(String::from_str(alloc, "not sql")?),
        Ran::OutOfMemory => Ok(String::from_str(alloc, "out of memory")?),
        Ran::Changed(count) => {
            let mut out = format!(in alloc; "{count} = ")?;
            out.push_str(show(alloc, engine)?.as_str())?;
            Ok(out)
        }
    }
}

/// What a user's text answers: why it does not run, or how many rows it changes.
pub fn told_by<P: SqlText, E: Executor>(
    alloc: Global,
    sql: &P,
    engine: &mut E,
    text: &str,
) -> Result<String, Fail>
    requires { (E.held engine.old).dialect ≡ P.dialect }
{
    match run(alloc, sql, engine, text) {
        Ran::Changed(count) => Ok(format!(in alloc; "{count} changed")?),
        ran => describe(alloc, engine, ran),
    }
}

fn is_same(a: &String, b: &String) -> bool {
    a.as_str() == b.as_str()
}

// Runs a text and takes it back.
fn run_and_back<P: SqlText, E: Executor>(
    alloc: Global,
    sql: &P,
    engine: &mut E,
    text: &str,
) -> Result<String, Fail>
    requires { (E.held engine.old).dialect ≡ P.dialect }
{
    let ran = run(alloc, sql, engine, text);
    let told = describe(alloc, engine, ran)?;
    if let Ran::Changed(_) = ran {
        engine.undo_last();
    }
    Ok(told)
}

// Whether an engine shows what it showed before.
fn is_back<E: Executor>(alloc: Global, engine: &E, before: &String) -> Result<bool, Fail> {
    Ok(is_same(&show(alloc, engine)?, before))
}

// What a text answers where a setup has run. It is run and undone, and once more and undone.
fn tried_with<P: SqlText, E: Executor>(
    alloc: Global,
    sql: &P,
    engine: &mut E,
    setup: &str,
    text: &str,
) -> Result<String, Fail>
    requires { (E.held engine.old).dialect ≡ P.dialect }
{
    if !run_all(alloc, sql, engine, setup) {
        return Ok(String::from_str(alloc, "the setup does not run")?);
    }
    engine.forget();
    let before = show(alloc, engine)?;
    let _ = run(alloc, sql, engine, text);
    engine.undo();
    let told = run_and_back(alloc, sql, engine, text)?;
    if is_back(alloc, engine, &before)? {
        Ok(told)
    } else {
        Ok(String::from_str(alloc, "it is not taken back")?)
    }
}

/// What a user's text answers where a setup has run: why it does not run, or how many rows it changes and
/// what stands then. It is taken back, and what stood before has to stand there again.
pub fn tried(alloc: Global, dialect: Dialect, setup: &str, text: &str) -> Result<String, Fail> {
    let mut engine = Engine::new(alloc, dialect);
    match dialect {
        Dialect::Postgresql => tried_with(alloc, &Pg, &mut engine, setup, text),
        Dialect::Mysql => tried_with(alloc, &My, &mut engine, setup, text),
    }
}

fn goes_back_with<P: SqlText, E: Executor>(
    alloc: Global,
    sql: &P,
    engine: &mut E,
    setup: &str,
    texts: &str,
) -> Result<bool, Fail>
    requires { (E.held engine.old).dialect ≡ P.dialect }
{
    if !run_all(alloc, sql, engine, setup) {
        return Ok(false);
    }
    engine.forget();
    let before = show(alloc, engine)?;
    let ran = run_all(alloc, sql, engine, texts);
    engine.undo();
    Ok(ran && is_back(alloc, engine, &before)?)
}

/// Whether a setup and then all the texts run, and the texts are taken back.
pub fn goes_back(alloc: Global, dialect: Dialect, setup: &str, texts: &str) -> Result<bool, Fail> {
    let mut engine = Engine::new(alloc, dialect);
    match dialect {
        Dialect::Postgresql => goes_back_with(alloc, &Pg, &mut engine, setup, texts),
        Dialect::Mysql => goes_back_with(alloc, &My, &mut engine, setup, texts),
    }
}
