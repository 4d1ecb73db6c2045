ghost use Rattle.std.specs.Prelude.{◌≡◌, ◌++◌, ◌∷◌, [], IfOk, OnErr, OnOk, Some, is_some, length, map, true};
ghost use Rattle.lq_chain.specs.Marks.{replaced};
ghost use Rattle.lq_model.specs.Catalogue.{table_of, the_table, with_table};
ghost use Rattle.lq_model.specs.Tables.{columns_without, row_without};
ghost use Rattle.lq_model.specs.Kinds.{default_value};
ghost use Rattle.lq_rows.specs.Stored.{Continues, with_all, with_shape};

use lq_base::{Duplicate, Items, Name, NoMemory, Value};
use lq_chain::Chain;
use lq_model::Column;
use lq_parts::Parts;
use lq_rows::{Row, Shape};
use std::alloc::Global;

fn push_all<T: Duplicate + Drop>(
    alloc: Global,
    to: &mut Items<T>,
    items: &[T],
) -> Result<(), NoMemory>
    ensures { OnOk result (to.new ≡ to.old ++ items.now) }
{
    for item in items {
        to.push(item.duplicate(alloc)?)?;
    }
    Ok(())
}

/// Adds the columns but the one of the name.
pub fn push_columns_without(
    alloc: Global,
    to: &mut Items<Column>,
    columns: &[Column],
    name: &Name,
) -> Result<(), NoMemory>
    ensures { OnOk result (to.new ≡ to.old ++ columns_without name.now columns.now) }
{
    let mut left = columns;
    while let Some((column, after)) = left.split_first() {
        if *name == column.name {
            return push_all(alloc, to, after);
        }
        to.push(column.duplicate(alloc)?)?;
        left = after;
    }
    Ok(())
}

fn push_without(
    alloc: Global,
    to: &mut Items<Value>,
    columns: &[Column],
    row: &[Value],
    name: &Name,
) -> Result<(), NoMemory>
    ensures { OnOk result (to.new ≡ to.old ++ row_without name.now columns.now row.now) }
{
    let mut left = row;
    for column in columns {
        let Some((value, after)) = left.split_first() else {
            return Ok(());
        };
        if *name == column.name {
            return push_all(alloc, to, after);
        }
        to.push(value.duplicate(alloc)?)?;
        left = after;
    }
    push_all(alloc, to, left)
}

/// The row without its value in the column.
fn less(alloc: Global, columns: &[Column], row: &Row, name: &Name) -> Result<Row, NoMemory>
    ensures { IfOk result (λ less. less ≡ row_without name.now columns.now row.now) }
{
    let mut values = Items::new(alloc);
    push_without(alloc, &mut values, columns, row.as_slice(), name)?;
    Ok(values)
}

/// The row with the column's default, or null, at its end.
fn more(alloc: Global, row: &Row, column: &Column) -> Result<Row, NoMemory>
    ensures { IfOk result (λ more. more ≡ row.now ++ default_value column.now ∷ []) }
{
    let mut values = row.duplicate(alloc)?;
    values.push(match &column.default {
        None => Value::Null,
        Some(value) => value.duplicate(alloc)?,
    })?;
    Ok(values)
}

fn all_less(
    alloc: Global,
    columns: &[Column],
    rows: &Chain<Row>,
    name: &Name,
) -> Result<Vec<Option<Row>>, NoMemory>
    ensures { IfOk result
        (λ by. by.items ≡ map (λ r. Some (row_without name.now columns.now r)) rows.now.now) }
{
    let mut by = Vec::new(alloc);
    for row in rows.iter() {
        by.push(Some(less(alloc, columns, row, name)?))?;
    }
    Ok(by)
}

fn all_more(alloc: Global, rows: &Chain<Row>, column: &Column) -> Result<Vec<Option<Row>>, NoMemory>
    ensures { IfOk result
        (λ by. by.items ≡ map (λ r. Some (r ++ default_value column.now ∷ [])) rows.now.now) }
{
    let mut by = Vec::new(alloc);
    for row in rows.iter() {
        by.push(Some(more(alloc, row, column)?))?;
    }
    Ok(by)
}

/// The rows of the table without their values in the column.
pub fn rows_less(
    parts: &Parts,
    alloc: Global,
    table: &Name,
    column: &Name,
) -> Result<Vec<Option<Row>>, NoMemory>
    ensures { IfOk result (λ by.
        by.items
        ≡ map (λ r. Some (row_without column.now (the_table parts.now.now table.now).columns r))
        (the_table parts.now.now table.now).rows) }
{
    match parts.table(table) {
        None => Ok(Vec::new(alloc)),
        Some(held) => all_less(alloc, held.columns(), held.rows(), column),
    }
}

/// The rows of the table with the column's default, or null, at their ends.
pub fn rows_more(
    parts: &Parts,
    alloc: Global,
    table: &Name,
    column: &Column,
) -> Result<Vec<Option<Row>>, NoMemory>
    ensures { IfOk result (λ by.
        by.items
        ≡ map (λ r. Some (r ++ default_value column.now ∷ []))
        (the_table parts.now.now table.now).rows) }
{
    match parts.table(table) {
        None => Ok(Vec::new(alloc)),
        Some(held) => all_more(alloc, held.rows(), column),
    }
}

/// Gives the table another shape, and puts other rows in place of its own.
pub fn reshape(
    parts: &mut Parts,
    alloc: Global,
    table: &Name,
    shape: Shape,
    by: Vec<Option<Row>>,
) -> Result<(), NoMemory>
    requires there { is_some (table_of parts.old.now table.now) ≡ true }
    requires each { length by.items ≡ length (the_table parts.old.now table.now).rows }
    ensures ok { OnOk result
        (parts.new.now
        ≡ with_table parts.old.now table.now
        (with_all (replaced by.items)
        (with_shape shape (the_table parts.old.now table.now)))) }
    ensures goes { Continues parts.old parts.new }
{
    parts.shape_table(table, shape)?;
    parts.replace_some(alloc, table, by)?;
    Ok(())
}
