ghost use Rattle.lq_model.specs.SqlParser.{Reads};
ghost use Rattle.lq_model.specs.SqlStatement as spec;

use crate::table::create_table;
use lq_base::{Dialect, Literal};
use lq_model::{Index, ParseFault, Statement, WordKind};
use lq_parse::cursor::Words;
use lq_parse::list::enclosed;
use lq_parse::part::{literal, name, object};
use lq_parse::query::query;
use std::alloc::Global;

// `INDEX q ON q (c)`
#[tactic(auto, unfolding(lq_model::specs::SqlStatement::create_index))]
fn create_index(
    alloc: Global,
    dialect: Dialect,
    words: &mut Words<'_>,
    unique: bool,
) -> Result<Statement, ParseFault>
    ensures { Reads (spec.create_index dialect unique words.old) result words.new }
{
    words.expect(WordKind::Index)?;
    let index = name(alloc, words)?;
    words.expect(WordKind::On)?;
    let table = object(alloc, dialect, words)?;
    let columns = enclosed(alloc, words, &name)?;
    Ok(Statement::CreateIndex {
        table,
        index: Index {
            name: index,
            columns,
            unique,
        },
    })
}

// `VIEW q AS query`
#[tactic(auto, unfolding(lq_model::specs::SqlStatement::create_view))]
fn create_view(
    alloc: Global,
    dialect: Dialect,
    words: &mut Words<'_>,
    replace: bool,
) -> Result<Statement, ParseFault>
    ensures { Reads (spec.create_view dialect replace words.old) result words.new }
{
    words.expect(WordKind::View)?;
    let view = object(alloc, dialect, words)?;
    words.expect(WordKind::As)?;
    let query = query(alloc, dialect, words)?;
    Ok(Statement::CreateView {
        view,
        query,
        replace,
    })
}

#[tactic(auto, unfolding(lq_model::specs::SqlStatement::whole))]
fn whole(alloc: Global, words: &mut Words<'_>) -> Result<i128, ParseFault>
    ensures { Reads (spec.whole words.old) result words.new }
{
    match literal(alloc, words)? {
        Literal::Int(number, ..) => Ok(number),
        _ => Err(ParseFault::NotSql),
    }
}

#[tactic(auto, unfolding(lq_model::specs::SqlStatement::step))]
fn step(alloc: Global, words: &mut Words<'_>) -> Result<i128, ParseFault>
    ensures { Reads (spec.step words.old) result words.new }
{
    let number = whole(alloc, words)?;
    if number == 0 {
        return Err(ParseFault::NotSql);
    }
    Ok(number)
}

// `q START WITH n INCREMENT BY n`
#[tactic(auto, unfolding(lq_model::specs::SqlStatement::create_sequence))]
fn create_sequence(
    alloc: Global,
    dialect: Dialect,
    words: &mut Words<'_>,
) -> Result<Statement, ParseFault>
    ensures { Reads (spec.create_sequence dialect words.old) result words.new }
{
    let name = object(alloc, dialect, words)?;
    words.expect(WordKind::Start)?;
    words.expect(WordKind::With)?;
    let start = whole(alloc, words)?;
    words.expect(WordKind::Increment)?;
    words.expect(WordKind::By)?;
    let step = step(alloc, words)?;
    Ok(Statement::CreateSequence { name, start, step })
}

/// What follows CREATE.
#[tactic(auto, unfolding(lq_model::specs::SqlStatement::create))]
pub fn create(
    alloc: Global,
    dialect: Dialect,
    words: &mut Words<'_>,
) -> Result<Statement, ParseFault>
    ensures { Reads (spec.create dialect words.old) result words.new }
{
    match (dialect, words.peek()) {
        (_, WordKind::Table) => {
            words.skip();
            create_table(alloc, dialect, words)
        }
        (_, WordKind::Index) => create_index(alloc, dialect, words, false),
        (_, WordKind::Unique) => {
            words.skip();
            create_index(alloc, dialect, words, true)
        }
        (_, WordKind::View) => create_view(alloc, dialect, words, false),
        (_, WordKind::Or) => {
            words.skip();
            words.expect(WordKind::Replace)?;
            create_view(alloc, dialect, words, true)
        }
        (Dialect::Postgresql, WordKind::Sequence) => {
            words.skip();
            create_sequence(alloc, dialect, words)
        }
        _ => Err(ParseFault::NotSql),
    }
}
