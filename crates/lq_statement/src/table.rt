ghost use Rattle.lq_model.specs.SqlParser.{Reads};
ghost use Rattle.lq_model.specs.SqlTable as spec;

use crate::column::{column_of, stated_column};
use crate::constraint::{begins_constraint, table_constraint};
use crate::gather::table_of;
use crate::inline::{column_foreign, column_key, column_unique};
use lq_base::{Dialect, Name};
use lq_model::{ParseFault, Statement, TableItem};
use lq_parse::cursor::Words;
use lq_parse::list::enclosed;
use lq_parse::part::object;
use std::alloc::Global;

// A column with the constraints that its clauses state.
#[tactic(auto, unfolding(lq_model::specs::SqlTable::column_item))]
fn column_item(
    alloc: Global,
    dialect: Dialect,
    words: &mut Words<'_>,
    table: &Name,
) -> Result<TableItem, ParseFault>
    ensures { Reads (spec.column_item dialect table.now words.old) result words.new }
{
    let column = stated_column(alloc, dialect, words)?;
    let key = column_key(alloc, dialect, table, &column)?;
    let unique = column_unique(alloc, table, &column)?;
    let foreign = column_foreign(alloc, table, &column)?;
    Ok(TableItem::Column {
        column: column_of(column),
        key,
        unique,
        foreign,
    })
}

#[tactic(auto, unfolding(lq_model::specs::SqlTable::table_item))]
fn table_item(
    alloc: Global,
    dialect: Dialect,
    words: &mut Words<'_>,
    table: &Name,
) -> Result<TableItem, ParseFault>
    ensures { Reads (spec.table_item dialect table.now words.old) result words.new }
{
    if begins_constraint(words.peek()) {
        Ok(TableItem::Constraint(table_constraint(alloc, dialect, words, table)?))
    } else {
        column_item(alloc, dialect, words, table)
    }
}

/// `q (item, ..)`
#[tactic(auto, unfolding(lq_model::specs::SqlTable::create_table))]
pub fn create_table(
    alloc: Global,
    dialect: Dialect,
    words: &mut Words<'_>,
) -> Result<Statement, ParseFault>
    ensures { Reads (spec.create_table dialect words.old) result words.new }
{
    let table = object(alloc, dialect, words)?;
    let item = |alloc: Global, words: &mut Words<'_>| table_item(alloc, dialect, words, &table);
    let items = enclosed(alloc, words, &item)?;
    table_of(alloc, table, items.as_slice())
}
