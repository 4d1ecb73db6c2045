ghost use Rattle.std.specs.Prelude.{◌≡◌, ◌&&◌, false, is_some, not, true};
ghost use Rattle.lq_model.specs.Catalogue.{table_of, the_table, with_table, is_empty, is_null, column_lists, has_column};
ghost use Rattle.lq_model.specs.Tables as spec;
ghost use Rattle.lq_model.specs.Kinds.{default_value};
ghost use Rattle.lq_model.specs.Plan.{decide};
ghost use Rattle.lq_model.specs.Sound.{IsSound};
ghost use Rattle.lq_rows.specs.Stored.{Answers};
ghost use Rattle.lq_columnops.specs.OnColumn.{Done};

use crate::asked::{column_tests, table_tests};
use crate::change::copied_shape;
use crate::needs::{is_aimed, is_bound, is_shown};
use crate::rows::{push_columns_without, reshape, rows_less, rows_more};
use lq_arm::Tests;
use lq_base::{Dialect, Items, Name, NoMemory};
use lq_model::{By, Column, ColumnDef};
use lq_parts::{Parts, RunFault};
use lq_rows::{has_column, is_null};
use lq_shapes::new_column;
use std::alloc::Global;

/// Drops the column, unless a test is against it.
#[tactic(auto, using(lq_rows::proofs::Continued::stays))]
fn drop_unless(
    parts: &mut Parts,
    alloc: Global,
    tests: &Tests,
    table: &Name,
    column: &Name,
) -> Result<u64, RunFault>
    requires { tests.now.missing ≡ false → is_some (table_of parts.old.now table.now) ≡ true }
    ensures { Done tests.now
        (with_table parts.old.now table.now
        (spec.without_column column.now (the_table parts.old.now table.now))) parts.old
        parts.new result }
{
    match tests.verdict() {
        Ok(()) => {}
        Err(fault) => return Err(fault),
    }
    let by = rows_less(parts, alloc, table, column)?;
    let mut shape = copied_shape(parts, alloc, table)?;
    let mut columns = Items::new(alloc);
    push_columns_without(alloc, &mut columns, shape.columns.as_slice(), column)?;
    shape.columns = columns;
    reshape(parts, alloc, table, shape, by)?;
    Ok(0)
}

fn is_only_in(columns: &[Column]) -> bool
    ensures { result ≡ spec.is_only columns.now }
{
    match columns {
        [_only] => true,
        _ => false,
    }
}

/// Whether the table has one column alone.
fn is_only(parts: &Parts, table: &Name) -> bool
    ensures { result ≡ spec.is_only (the_table parts.now.now table.now).columns }
{
    match parts.table(table) {
        None => false,
        Some(held) => is_only_in(held.columns()),
    }
}

/// DROP COLUMN on a sound catalogue, on someone's behalf.
pub fn drop_column(
    parts: &mut Parts,
    alloc: Global,
    by: By,
    dialect: Dialect,
    table: &Name,
    column: &Name,
) -> Result<u64, RunFault>
    requires { IsSound dialect parts.old.now }
    ensures { Answers (decide (spec.drop_column by dialect table.now column.now parts.old.now))
        parts.old parts.new result }
{
    let tests = Tests {
        depends: is_shown(parts, table, column)
            | (is_bound(parts, table, column)
                | (is_aimed(parts, table, column) | is_only(parts, table))),
        ..column_tests(parts, by, table, column)
    };
    drop_unless(parts, alloc, &tests, table, column)
}

/// Adds the column at the end, unless a test is against it.
#[tactic(auto, using(lq_rows::proofs::Continued::stays))]
fn add_unless(
    parts: &mut Parts,
    alloc: Global,
    tests: &Tests,
    table: &Name,
    column: Column,
) -> Result<u64, RunFault>
    requires { tests.now.missing ≡ false → is_some (table_of parts.old.now table.now) ≡ true }
    ensures { Done tests.now
        (with_table parts.old.now table.now
        (spec.with_column column (the_table parts.old.now table.now))) parts.old parts.new
        result }
{
    match tests.verdict() {
        Ok(()) => {}
        Err(fault) => return Err(fault),
    }
    let by = rows_more(parts, alloc, table, &column)?;
    let mut shape = copied_shape(parts, alloc, table)?;
    shape.columns.push(column)?;
    reshape(parts, alloc, table, shape, by)?;
    Ok(0)
}

/// Whether the table has a column of the name.
fn has(parts: &Parts, table: &Name, column: &Name) -> bool
    ensures { result ≡ has_column (the_table parts.now.now table.now) column.now }
{
    match parts.table(table) {
        None => false,
        Some(held) => has_column(held.columns(), column),
    }
}

/// Whether the table has a row.
fn has_row(parts: &Parts, table: &Name) -> bool
    ensures { result ≡ not (is_empty (the_table parts.now.now table.now).rows) }
{
    match parts.table(table) {
        None => false,
        Some(held) => held.len() > 0,
    }
}

/// Whether a row that states no value would have a null where none may stand.
fn lacks_default(column: &Column) -> bool
    ensures { result ≡ (not column.now.nullable && is_null (default_value column.now)) }
{
    if column.nullable {
        return false;
    }
    match &column.default {
        None => true,
        Some(value) => is_null(value),
    }
}

/// ADD COLUMN on a sound catalogue, on someone's behalf.
pub fn add_column(
    parts: &mut Parts,
    alloc: Global,
    by: By,
    dialect: Dialect,
    table: &Name,
    def: &ColumnDef,
) -> Result<u64, RunFault>
    requires { IsSound dialect parts.old.now }
    ensures { Answers (decide (spec.add_column by dialect table.now def.now parts.old.now))
        parts.old parts.new result }
{
    let new = new_column(alloc, def)?;
    let tests = Tests {
        exists: has(parts, table, &def.name),
        depends: def.numbered,
        wrong: new.is_wrong,
        wide: new.is_wide,
        nulls: lacks_default(&new.column) & has_row(parts, table),
        ..table_tests(parts, by, table)
    };
    add_unless(parts, alloc, &tests, table, new.column)
}
