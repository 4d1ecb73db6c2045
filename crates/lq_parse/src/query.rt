ghost use Rattle.lq_model.specs.SqlParser.{Reads};
ghost use Rattle.lq_model.specs.SqlQuery as spec;
ghost use Rattle.std.specs.Prelude.{◌≡◌};

use crate::cursor::Words;
use crate::list::separated;
use crate::part::{name, object};
use crate::test::where_test;
use lq_base::Dialect;
use lq_model::{ParseFault, Query, Wanted, WordKind};
use std::alloc::Global;

// COUNT( and not a column of that name.
#[tactic(auto, unfolding(lq_model::specs::SqlQuery::sees_count))]
fn sees_count(words: &Words<'_>) -> bool
    ensures { result ≡ spec.sees_count words.now }
{
    words.sees(WordKind::Count) && words.sees_second(WordKind::Open)
}

#[tactic(auto, unfolding(lq_model::specs::SqlQuery::count))]
fn count(words: &mut Words<'_>) -> Result<Wanted, ParseFault>
    ensures { Reads (spec.count words.old) result words.new }
{
    words.expect(WordKind::Count)?;
    words.expect(WordKind::Open)?;
    words.expect(WordKind::Star)?;
    words.expect(WordKind::Close)?;
    Ok(Wanted::Count)
}

#[tactic(auto, unfolding(lq_model::specs::SqlQuery::columns))]
fn columns(alloc: Global, words: &mut Words<'_>) -> Result<Wanted, ParseFault>
    ensures { Reads (spec.columns words.old) result words.new }
{
    Ok(Wanted::Columns(separated(alloc, words, &name)?))
}

#[tactic(auto, unfolding(lq_model::specs::SqlQuery::selected))]
fn selected(alloc: Global, words: &mut Words<'_>) -> Result<Wanted, ParseFault>
    ensures { Reads (spec.selected words.old) result words.new }
{
    if words.eat(WordKind::Star) {
        Ok(Wanted::All)
    } else if sees_count(words) {
        count(words)
    } else {
        columns(alloc, words)
    }
}

/// SELECT of `*`, of `COUNT(*)` or of columns, FROM one table, also with WHERE. `NotSql` where none
/// comes next.
#[tactic(auto, unfolding(lq_model::specs::SqlQuery::query))]
pub fn query(alloc: Global, dialect: Dialect, words: &mut Words<'_>) -> Result<Query, ParseFault>
    ensures { Reads (spec.query dialect words.old) result words.new }
{
    words.expect(WordKind::Select)?;
    let wanted = selected(alloc, words)?;
    words.expect(WordKind::From)?;
    let table = object(alloc, dialect, words)?;
    let test = where_test(alloc, words)?;
    Ok(Query {
        wanted,
        table,
        test,
    })
}
