ghost use Rattle.lq_model.specs.SqlParser.{Reads};
ghost use Rattle.lq_model.specs.SqlRows as spec;

use lq_base::{Dialect, Items, Literal, Name};
use lq_model::{ParseFault, Statement, WordKind};
use lq_parse::cursor::Words;
use lq_parse::list::{enclosed, separated};
use lq_parse::part::{literal, name, object};
use lq_parse::test::where_test;
use std::alloc::Global;

// The columns that get values: `(c)`, or all of the table's.
#[tactic(auto, unfolding(lq_model::specs::SqlRows::stated_columns, lq_model::specs::SqlParser::sees))]
fn stated_columns(alloc: Global, words: &mut Words<'_>) -> Result<Items<Name>, ParseFault>
    ensures { Reads (spec.stated_columns words.old) result words.new }
{
    if words.sees(WordKind::Open) {
        enclosed(alloc, words, &name)
    } else {
        Ok(Items::new(alloc))
    }
}

/// `INTO q [(c)] VALUES (lit, ..)`
#[tactic(auto, unfolding(lq_model::specs::SqlRows::insert))]
pub fn insert(
    alloc: Global,
    dialect: Dialect,
    words: &mut Words<'_>,
) -> Result<Statement, ParseFault>
    ensures { Reads (spec.insert dialect words.old) result words.new }
{
    words.expect(WordKind::Into)?;
    let table = object(alloc, dialect, words)?;
    let columns = stated_columns(alloc, words)?;
    words.expect(WordKind::Values)?;
    let values = enclosed(alloc, words, &literal)?;
    Ok(Statement::Insert {
        table,
        columns,
        values,
    })
}

// `q = lit`
#[tactic(auto, unfolding(lq_model::specs::SqlRows::assignment))]
fn assignment(alloc: Global, words: &mut Words<'_>) -> Result<(Name, Literal), ParseFault>
    ensures { Reads (spec.assignment words.old) result words.new }
{
    let column = name(alloc, words)?;
    words.expect(WordKind::Equal)?;
    let value = literal(alloc, words)?;
    Ok((column, value))
}

/// `q SET q = lit, .. [WHERE test]`
#[tactic(auto, unfolding(lq_model::specs::SqlRows::update))]
pub fn update(
    alloc: Global,
    dialect: Dialect,
    words: &mut Words<'_>,
) -> Result<Statement, ParseFault>
    ensures { Reads (spec.update dialect words.old) result words.new }
{
    let table = object(alloc, dialect, words)?;
    words.expect(WordKind::Set)?;
    let sets = separated(alloc, words, &assignment)?;
    let test = where_test(alloc, words)?;
    Ok(Statement::Update { table, sets, test })
}

/// `FROM q [WHERE test]`
#[tactic(auto, unfolding(lq_model::specs::SqlRows::delete))]
pub fn delete(
    alloc: Global,
    dialect: Dialect,
    words: &mut Words<'_>,
) -> Result<Statement, ParseFault>
    ensures { Reads (spec.delete dialect words.old) result words.new }
{
    words.expect(WordKind::From)?;
    let table = object(alloc, dialect, words)?;
    let test = where_test(alloc, words)?;
    Ok(Statement::Delete { table, test })
}
