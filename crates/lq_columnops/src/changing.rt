ghost use Rattle.std.specs.List.{list_any};
ghost use Rattle.std.specs.Prelude.{◌≡◌, ◌&&◌, Some, not};
ghost use Rattle.lq_base.specs.Name.{is_named};
ghost use Rattle.lq_model.specs.Catalogue.{the_table, has_null_in, by_name};
ghost use Rattle.lq_model.specs.Tables as spec;
ghost use Rattle.lq_model.specs.Kinds.{kind_in, kind_of, same_kind};
ghost use Rattle.lq_model.specs.Plan.{decide};
ghost use Rattle.lq_model.specs.Sound.{IsSound};
ghost use Rattle.lq_base.specs.Value.{is_value_of};
ghost use Rattle.lq_rows.specs.Stored.{Answers};

use crate::asked::column_tests;
use crate::change::{Change, change_unless};
use crate::needs::{is_aimed, is_in_foreign, is_in_key, is_shown};
use lq_arm::Tests;
use lq_base::{Dialect, Kind, Literal, Name, Value};
use lq_model::{By, Column};
use lq_parts::{Parts, RunFault};
use lq_rows::{Held, Row, by_name};
use lq_shapes::{convert, same_kind};
use std::alloc::Global;

/// DROP NOT NULL on a sound catalogue, on someone's behalf.
pub fn drop_not_null(
    parts: &mut Parts,
    alloc: Global,
    by: By,
    dialect: Dialect,
    table: &Name,
    column: &Name,
) -> Result<u64, RunFault>
    requires { IsSound dialect parts.old.now }
    ensures { Answers (decide (spec.drop_not_null by dialect table.now column.now parts.old.now))
        parts.old parts.new result }
{
    let tests = Tests {
        depends: is_in_key(parts, table, column),
        ..column_tests(parts, by, table, column)
    };
    change_unless(parts, alloc, &tests, table, column, &Change::Nullable(true))
}

/// DROP DEFAULT on a sound catalogue, on someone's behalf.
pub fn drop_default(
    parts: &mut Parts,
    alloc: Global,
    by: By,
    dialect: Dialect,
    table: &Name,
    column: &Name,
) -> Result<u64, RunFault>
    requires { IsSound dialect parts.old.now }
    ensures { Answers (decide (spec.drop_default by dialect table.now column.now parts.old.now))
        parts.old parts.new result }
{
    let tests = column_tests(parts, by, table, column);
    change_unless(parts, alloc, &tests, table, column, &Change::Default(None))
}

fn kind_in(columns: &[Column], name: &Name) -> Kind
    ensures { result ≡ kind_in name.now columns.now }
{
    for column in columns {
        if *name == column.name {
            return column.kind;
        }
    }
    Kind::Text
}

/// The kind of the table's column, where there is one.
fn the_kind(parts: &Parts, table: &Name, column: &Name) -> Kind
    ensures { result ≡ kind_in column.now (the_table parts.now.now table.now).columns }
{
    match parts.table(table) {
        None => Kind::Text,
        Some(held) => kind_in(held.columns(), column),
    }
}

fn numbers(columns: &[Column], name: &Name) -> bool
    ensures { result ≡ list_any (λ e. is_named name.now e.name && e.numbered) columns.now }
{
    columns
        .iter()
        .any(|column| *name == column.name && column.numbered)
}

/// Whether the column is there and is numbered.
fn is_numbered(parts: &Parts, table: &Name, column: &Name) -> bool
    ensures { result
        ≡ list_any (λ e. is_named column.now e.name && e.numbered)
        (the_table parts.now.now table.now).columns }
{
    match parts.table(table) {
        None => false,
        Some(held) => numbers(held.columns(), column),
    }
}

#[tactic(auto, using(lq_rows::proofs::Continued::stays))]
/// SET DEFAULT on a sound catalogue, on someone's behalf.
pub fn set_default(
    parts: &mut Parts,
    alloc: Global,
    by: By,
    dialect: Dialect,
    table: &Name,
    column: &Name,
    value: &Literal,
) -> Result<u64, RunFault>
    requires { IsSound dialect parts.old.now }
    ensures { Answers
        (decide (spec.set_default by dialect table.now column.now value.now parts.old.now))
        parts.old parts.new result }
{
    let stated = convert(alloc, value, the_kind(parts, table, column))?;
    let tests = Tests {
        depends: is_numbered(parts, table, column),
        wrong: stated.is_wrong,
        wide: stated.is_wide,
        ..column_tests(parts, by, table, column)
    };
    let change = Change::Default(Some(stated.value));
    change_unless(parts, alloc, &tests, table, column, &change)
}

/// Whether a row of the table has a null in the column, which is there.
fn has_null(parts: &Parts, table: &Name, column: &Name) -> bool
    ensures { result ≡ has_null_in column.now (the_table parts.now.now table.now) }
{
    match parts.table(table) {
        None => false,
        Some(held) => held.has_null(column),
    }
}

/// SET NOT NULL on a sound catalogue, on someone's behalf.
pub fn set_not_null(
    parts: &mut Parts,
    alloc: Global,
    by: By,
    dialect: Dialect,
    table: &Name,
    column: &Name,
) -> Result<u64, RunFault>
    requires { IsSound dialect parts.old.now }
    ensures { Answers (decide (spec.set_not_null by dialect table.now column.now parts.old.now))
        parts.old parts.new result }
{
    let tests = Tests {
        nulls: has_null(parts, table, column),
        ..column_tests(parts, by, table, column)
    };
    change_unless(
        parts,
        alloc,
        &tests,
        table,
        column,
        &Change::Nullable(false),
    )
}

/// Whether the value may stand in a column of the kind, but for its size.
fn is_variant(kind: Kind, value: &Value) -> bool
    ensures { result ≡ spec.is_variant kind value.now }
{
    match (kind, value) {
        (_, Value::Null) => true,
        (Kind::Int, Value::Int(_)) => true,
        (Kind::BigInt, Value::Int(_)) => true,
        (Kind::Boolean, Value::Bool(_)) => true,
        (Kind::Varchar(_), Value::Text(_)) => true,
        (Kind::Text, Value::Text(_)) => true,
        (Kind::Moment, Value::Moment(_)) => true,
        (Kind::Decimal(_, decimals), Value::Fixed { scale, .. }) => decimals == *scale,
        _ => false,
    }
}

fn is_row_wrong(columns: &[Column], row: &Row, column: &Name, kind: Kind) -> bool
    ensures { result ≡ not (spec.is_variant kind (by_name columns.now row.now column.now)) }
{
    match by_name(columns, row.as_slice(), column) {
        None => false,
        Some(value) => !is_variant(kind, value),
    }
}

fn is_row_wide(columns: &[Column], row: &Row, column: &Name, kind: Kind) -> bool
    ensures { result ≡ not (is_value_of kind (by_name columns.now row.now column.now)) }
{
    match by_name(columns, row.as_slice(), column) {
        None => !Value::Null.is_of(kind),
        Some(value) => !value.is_of(kind),
    }
}

fn one_wrong(held: &Held, column: &Name, kind: Kind) -> bool
    ensures { result
        ≡ list_any (λ r. not (spec.is_variant kind (by_name held.now.now.columns r column.now)))
        held.now.now.rows }
{
    for row in held.rows().iter() {
        if is_row_wrong(held.columns(), row, column, kind) {
            return true;
        }
    }
    false
}

fn one_wide(held: &Held, column: &Name, kind: Kind) -> bool
    ensures { result
        ≡ list_any (λ r. not (is_value_of kind (by_name held.now.now.columns r column.now)))
        held.now.now.rows }
{
    for row in held.rows().iter() {
        if is_row_wide(held.columns(), row, column, kind) {
            return true;
        }
    }
    false
}

/// Whether a row's value in the column is of another sort than the kind's.
fn are_wrong(parts: &Parts, table: &Name, column: &Name, kind: Kind) -> bool
    ensures { result
        ≡ list_any (λ r.
        not
        (spec.is_variant kind
        (by_name (the_table parts.now.now table.now).columns r column.now)))
        (the_table parts.now.now table.now).rows }
{
    match parts.table(table) {
        None => false,
        Some(held) => one_wrong(held, column, kind),
    }
}

/// Whether a row's value in the column is not one of the kind.
fn are_wide(parts: &Parts, table: &Name, column: &Name, kind: Kind) -> bool
    ensures { result
        ≡ list_any (λ r.
        not
        (is_value_of kind (by_name (the_table parts.now.now table.now).columns r column.now)))
        (the_table parts.now.now table.now).rows }
{
    match parts.table(table) {
        None => false,
        Some(held) => one_wide(held, column, kind),
    }
}

fn kind_of(columns: &[Column], name: &Name) -> Option<Kind>
    ensures { result ≡ kind_of name.now columns.now }
{
    for column in columns {
        if *name == column.name {
            return Some(column.kind);
        }
    }
    None
}

fn is_of_kind(parts: &Parts, table: &Name, column: &Name, kind: Kind) -> bool
    ensures { result
        ≡ same_kind (kind_of column.now (the_table parts.now.now table.now).columns) (Some kind) }
{
    match parts.table(table) {
        None => false,
        Some(held) => same_kind(kind_of(held.columns(), column), Some(kind)),
    }
}

/// Whether the column is of another kind, and a view or a foreign key on either side names it.
fn is_kind_needed(parts: &Parts, table: &Name, column: &Name, kind: Kind) -> bool
    ensures { result ≡ spec.kind_needed parts.now.now table.now column.now kind }
{
    !is_of_kind(parts, table, column, kind)
        && (is_shown(parts, table, column)
            || (is_in_foreign(parts, table, column) || is_aimed(parts, table, column)))
}

/// MODIFY on a sound catalogue, on someone's behalf.
pub fn modify(
    parts: &mut Parts,
    alloc: Global,
    by: By,
    dialect: Dialect,
    table: &Name,
    column: &Name,
    kind: Kind,
    nullable: bool,
) -> Result<u64, RunFault>
    requires { IsSound dialect parts.old.now }
    ensures { Answers
        (decide (spec.modify by dialect table.now column.now kind nullable parts.old.now)) parts.old
        parts.new result }
{
    let tests = Tests {
        depends: (nullable & is_in_key(parts, table, column))
            | is_kind_needed(parts, table, column, kind),
        wrong: are_wrong(parts, table, column, kind),
        wide: are_wide(parts, table, column, kind),
        nulls: !nullable & has_null(parts, table, column),
        ..column_tests(parts, by, table, column)
    };
    let change = Change::Modified(kind, nullable);
    change_unless(parts, alloc, &tests, table, column, &change)
}
