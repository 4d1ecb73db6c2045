ghost use Rattle.lq_model.specs.SqlParser.{Reads};
ghost use Rattle.lq_model.specs.SqlAlter as spec;

use crate::alter::rename_table_to;
use lq_base::Dialect;
use lq_model::{ParseFault, Statement, WordKind};
use lq_parse::cursor::Words;
use lq_parse::part::{name, object};
use std::alloc::Global;

#[tactic(auto, unfolding(lq_model::specs::SqlAlter::drop_index))]
fn drop_index(
    alloc: Global,
    dialect: Dialect,
    words: &mut Words<'_>,
) -> Result<Statement, ParseFault>
    ensures { Reads (spec.drop_index dialect words.old) result words.new }
{
    match dialect {
        Dialect::Postgresql => {
            let index = object(alloc, dialect, words)?;
            Ok(Statement::DropIndex {
                name: index,
                table: None,
            })
        }
        Dialect::Mysql => {
            let index = name(alloc, words)?;
            words.expect(WordKind::On)?;
            let table = name(alloc, words)?;
            Ok(Statement::DropIndex {
                name: index,
                table: Some(table),
            })
        }
    }
}

/// What follows DROP.
#[tactic(auto, unfolding(lq_model::specs::SqlAlter::drop_object))]
pub fn drop_object(
    alloc: Global,
    dialect: Dialect,
    words: &mut Words<'_>,
) -> Result<Statement, ParseFault>
    ensures { Reads (spec.drop_object dialect words.old) result words.new }
{
    let sort = words.peek();
    words.skip();
    match (dialect, sort) {
        (_, WordKind::Table) => {
            let table = object(alloc, dialect, words)?;
            Ok(Statement::DropTable { table })
        }
        (_, WordKind::Index) => drop_index(alloc, dialect, words),
        (_, WordKind::View) => {
            let view = object(alloc, dialect, words)?;
            Ok(Statement::DropView { view })
        }
        (Dialect::Postgresql, WordKind::Sequence) => {
            let name = object(alloc, dialect, words)?;
            Ok(Statement::DropSequence { name })
        }
        _ => Err(ParseFault::NotSql),
    }
}

/// What follows RENAME: `TABLE q TO q`.
#[tactic(auto, unfolding(lq_model::specs::SqlAlter::rename_table))]
pub fn rename_table(alloc: Global, words: &mut Words<'_>) -> Result<Statement, ParseFault>
    ensures { Reads (spec.rename_table words.old) result words.new }
{
    words.expect(WordKind::Table)?;
    let table = name(alloc, words)?;
    rename_table_to(alloc, words, table)
}
