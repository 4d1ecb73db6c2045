ghost use Rattle.lq_model.specs.SqlParser.{Reads};
ghost use Rattle.lq_model.specs.SqlAlter as spec;

use lq_base::{Dialect, Name};
use lq_model::{ParseFault, Statement, WordKind};
use lq_parse::cursor::Words;
use lq_parse::part::{literal, name};
use std::alloc::Global;

// What follows SET.
#[tactic(auto, unfolding(lq_model::specs::SqlAlter::set_part))]
fn set_part(
    alloc: Global,
    dialect: Dialect,
    words: &mut Words<'_>,
    table: Name,
    column: Name,
) -> Result<Statement, ParseFault>
    ensures { Reads (spec.set_part dialect table column words.old) result words.new }
{
    let part = words.peek();
    words.skip();
    match (dialect, part) {
        (Dialect::Postgresql, WordKind::Not) => {
            words.expect(WordKind::Null)?;
            Ok(Statement::SetNotNull { table, column })
        }
        (_, WordKind::Default) => {
            let value = literal(alloc, words)?;
            Ok(Statement::SetDefault {
                table,
                column,
                value,
            })
        }
        _ => Err(ParseFault::NotSql),
    }
}

// What follows DROP.
#[tactic(auto, unfolding(lq_model::specs::SqlAlter::unset_part))]
fn unset_part(
    dialect: Dialect,
    words: &mut Words<'_>,
    table: Name,
    column: Name,
) -> Result<Statement, ParseFault>
    ensures { Reads (spec.unset_part dialect table column words.old) result words.new }
{
    let part = words.peek();
    words.skip();
    match (dialect, part) {
        (Dialect::Postgresql, WordKind::Not) => {
            words.expect(WordKind::Null)?;
            Ok(Statement::DropNotNull { table, column })
        }
        (_, WordKind::Default) => Ok(Statement::DropDefault { table, column }),
        _ => Err(ParseFault::NotSql),
    }
}

/// `COLUMN q` and what is set or dropped of it.
#[tactic(auto, unfolding(lq_model::specs::SqlAlter::alter_column))]
pub fn alter_column(
    alloc: Global,
    dialect: Dialect,
    words: &mut Words<'_>,
    table: Name,
) -> Result<Statement, ParseFault>
    ensures { Reads (spec.alter_column dialect table words.old) result words.new }
{
    words.expect(WordKind::Column)?;
    let column = name(alloc, words)?;
    let part = words.peek();
    words.skip();
    match part {
        WordKind::Set => set_part(alloc, dialect, words, table, column),
        WordKind::Drop => unset_part(dialect, words, table, column),
        _ => Err(ParseFault::NotSql),
    }
}
