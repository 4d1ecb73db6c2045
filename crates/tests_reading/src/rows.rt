use crate::{lexemes, spelled};
use lq_base::{Dialect, NoMemory};
use lq_my::My;
use lq_pg::Pg;
use lq_samples::Trimmed;
use std::alloc::Global;
use tests_table::{Kinds, no_kind, text};

/// The kinds of rows on SQL texts.
#[derive(Clone, Copy)]
pub struct ReadingKinds;

impl Kinds for ReadingKinds {
    fn outcome(&self, alloc: Global, kind: &str, given: &[&str]) -> Result<String, NoMemory> {
        match given {
            [dialect, of] => read(alloc, kind, dialect, text(alloc, of)?.as_str()),
            [one, two, three] => outcome_of_three(alloc, kind, one, two, three),
            _ => no_kind(alloc),
        }
    }
}

fn outcome_of_three(
    alloc: Global,
    kind: &str,
    one: &str,
    two: &str,
    three: &str,
) -> Result<String, NoMemory> {
    match kind {
        "pieces" => pieces(alloc, one, two, three),
        "nested test" => spelled::nested_test(alloc, one, two, three),
        _ => no_kind(alloc),
    }
}

fn dialect_of(word: &str) -> Dialect {
    match word {
        "postgresql" => Dialect::Postgresql,
        _ => Dialect::Mysql,
    }
}

fn pieces(alloc: Global, dialect: &str, delimiter: &str, of: &str) -> Result<String, NoMemory> {
    let delimiter = text(alloc, delimiter)?;
    let of = text(alloc, of)?;
    lexemes::pieces(alloc, dialect_of(dialect), delimiter.as_str(), of.as_str())
}

fn read(alloc: Global, kind: &str, dialect: &str, of: &str) -> Result<String, NoMemory> {
    match kind {
        "lexemes" => lexemes::lexemes(alloc, dialect_of(dialect), of),
        "plain name" => spelled::plain_name(alloc, dialect_of(dialect), of),
        "statement" => statement(alloc, dialect, of),
        "query" => query(alloc, dialect, of),
        "test" => test(alloc, dialect, of),
        _ => no_kind(alloc),
    }
}

fn statement(alloc: Global, dialect: &str, of: &str) -> Result<String, NoMemory> {
    match dialect {
        "postgresql" => spelled::statement(&Pg, alloc, of),
        "mysql" => spelled::statement(&My, alloc, of),
        "trimmed mysql" => spelled::statement(&Trimmed { reader: My }, alloc, of),
        _ => no_kind(alloc),
    }
}

fn query(alloc: Global, dialect: &str, of: &str) -> Result<String, NoMemory> {
    match dialect {
        "postgresql" => spelled::query(&Pg, alloc, Dialect::Postgresql, of),
        "mysql" => spelled::query(&My, alloc, Dialect::Mysql, of),
        "trimmed mysql" => spelled::query(&Trimmed { reader: My }, alloc, Dialect::Mysql, of),
        _ => no_kind(alloc),
    }
}

fn test(alloc: Global, dialect: &str, of: &str) -> Result<String, NoMemory> {
    match dialect {
        "postgresql" => spelled::test(&Pg, alloc, Dialect::Postgresql, of),
        "mysql" => spelled::test(&My, alloc, Dialect::Mysql, of),
        "trimmed mysql" => spelled::test(&Trimmed { reader: My }, alloc, Dialect::Mysql, of),
        _ => no_kind(alloc),
    }
}
