ghost use Rattle.lq_model.specs.SqlParser.{Gives, Reads};
ghost use Rattle.lq_model.specs.SqlParser as parser;
ghost use Rattle.lq_model.specs.SqlQuery.{query};
ghost use Rattle.lq_model.specs.SqlText.{query_in, test_in};
ghost use Rattle.lq_model.specs.SqlTest.{any_test};

use crate::cursor::Words;
use crate::lexing::words;
use crate::query::query;
use crate::test::any_test;
use lq_base::{Boxed, Dialect};
use lq_model::{ParseFault, Query, Test, WordKind};
use std::alloc::Global;

/// What was read, at the end of the text, before which one `;` may stand. `NotSql` where more
/// follows.
#[tactic(auto, unfolding(lq_model::specs::SqlParser::ended))]
pub fn ended<T: Drop>(words: &mut Words<'_>, it: T) -> Result<T, ParseFault>
    ensures { Reads (parser.ended it words.old) result words.new }
{
    words.eat(WordKind::Semicolon);
    words.expect(WordKind::End)?;
    Ok(it)
}

fn whole_test(alloc: Global, words: &mut Words<'_>) -> Result<Boxed<Test>, ParseFault>
    ensures { Reads (parser.to_end any_test words.old) result words.new }
{
    let test = any_test(alloc, words)?;
    ended(words, test)
}

fn whole_query(alloc: Global, dialect: Dialect, words: &mut Words<'_>) -> Result<Query, ParseFault>
    ensures { Reads (parser.to_end (query dialect) words.old) result words.new }
{
    let query = query(alloc, dialect, words)?;
    ended(words, query)
}

/// The test that a text spells in a dialect. `NotSql` exactly where it spells none.
#[tactic(auto, unfolding(lq_model::specs::SqlText::test_in))]
pub fn parse_test(alloc: Global, dialect: Dialect, text: &str) -> Result<Test, ParseFault>
    ensures { Gives (test_in dialect text.now) result }
{
    let words = words(alloc, dialect, text.as_bytes())?;
    let test = whole_test(alloc, &mut Words::new(&words))?;
    Ok(test.into_inner())
}

/// The query that a text spells in a dialect. `NotSql` exactly where it spells none.
#[tactic(auto, unfolding(lq_model::specs::SqlText::query_in))]
pub fn parse_query(alloc: Global, dialect: Dialect, text: &str) -> Result<Query, ParseFault>
    ensures { Gives (query_in dialect text.now) result }
{
    let words = words(alloc, dialect, text.as_bytes())?;
    whole_query(alloc, dialect, &mut Words::new(&words))
}
