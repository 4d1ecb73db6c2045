ghost use Rattle.std.specs.List.{list_any};
ghost use Rattle.std.specs.Prelude.{◌≡◌, ◌+◌, IfOk, IfSome, cond, Ok, [], not, map, pos};
ghost use Rattle.lq_base.specs.Spells.{Goes};
ghost use Rattle.lq_model.specs.Rows as spec;
ghost use Rattle.lq_model.specs.Kinds.{default_value};
ghost use Rattle.lq_model.specs.Catalogue as catalogue;
ghost use Rattle.lq_base.specs.declared.dialect.Dialect.TheVariants.{Mysql};
ghost use Rattle.lq_base.specs.declared.value.Value.TheVariants.{Int};
ghost use Rattle.lq_rowops.specs.InsertTests.{RowAnswers, RowMeans};

use lq_base::{
    Dialect, Duplicate, IntoFault, Items, Literal, Name, NoMemory, Reason, Value, into_kind,
};
use lq_model::Column;
use lq_parts::RunFault;
use lq_rows::{Row, has_column, is_null};
use std::alloc::Global;

/// The value that a new row has in a column.
fn cell(
    alloc: Global,
    next: u64,
    stated: &[Name],
    values: &[Literal],
    column: &Column,
) -> Result<Value, IntoFault>
    ensures { Goes (spec.cell next stated.now values.now column.now) result }
{
    let mut names = stated;
    let mut given = values;
    while let [name, more @ ..] = names {
        let [value, others @ ..] = given else {
            return default_of(alloc, column);
        };
        if column.name == *name {
            return into_kind(alloc, value, column.kind);
        }
        names = more;
        given = others;
    }
    unstated(alloc, next, column)
}

fn unstated(alloc: Global, next: u64, column: &Column) -> Result<Value, IntoFault>
    ensures { Goes (spec.cell next [] [] column.now) result }
{
    if column.numbered {
        return into_kind(alloc, &Literal::Int(next as i128), column.kind);
    }
    default_of(alloc, column)
}

fn default_of(alloc: Global, column: &Column) -> Result<Value, IntoFault>
    ensures { Goes (Ok (default_value column.now)) result }
{
    match &column.default {
        None => Ok(Value::Null),
        Some(value) => match value.duplicate(alloc) {
            Ok(value) => Ok(value),
            Err(_) => Err(IntoFault::OutOfMemory),
        },
    }
}

/// The new row, or the first reason against a value of it.
pub fn row_of(
    alloc: Global,
    next: u64,
    stated: &[Name],
    values: &[Literal],
    columns: &[Column],
) -> Result<Row, RunFault>
    ensures { RowAnswers (map (spec.cell next stated.now values.now) columns.now) result }
{
    let mut row = Items::from_vec(Vec::with_capacity(alloc, columns.len())?);
    let mut is_wide = false;
    for column in columns {
        match cell(alloc, next, stated, values, column) {
            Ok(value) => row.push(value)?,
            Err(IntoFault::WrongKind) => return Err(RunFault::Refused(Reason::WrongKind)),
            Err(IntoFault::OutOfMemory) => return Err(RunFault::OutOfMemory),
            Err(IntoFault::TooWide) => {
                is_wide = true;
                row.push(Value::Null)?;
            }
        }
    }
    if is_wide {
        return Err(RunFault::Refused(Reason::TooWide));
    }
    Ok(row)
}

/// Whether a NOT NULL column of the row holds null.
pub fn has_bad_null(columns: &[Column], row: &[Value]) -> bool
    ensures { result ≡ catalogue.has_bad_null columns.now row.now }
{
    let mut left = columns;
    let mut cells = row;
    while let [column, more @ ..] = left {
        let [value, others @ ..] = cells else {
            return false;
        };
        if !column.nullable && is_null(value) {
            return true;
        }
        left = more;
        cells = others;
    }
    false
}

/// Whether one of the names stands there twice.
pub fn repeats(names: &[Name]) -> bool
    ensures { result ≡ catalogue.repeats names.now }
{
    let mut left = names;
    while let [first, rest @ ..] = left {
        if is_in(first, rest) {
            return true;
        }
        left = rest;
    }
    false
}

pub fn is_in(name: &Name, names: &[Name]) -> bool
    ensures { result ≡ catalogue.is_in name.now names.now }
{
    names.iter().any(|other| *name == *other)
}

/// Whether a column of one of the names is missing.
pub fn column_missing(columns: &[Column], names: &[Name]) -> bool
    ensures { result
        ≡ list_any (λ n. not (catalogue.is_in n (map (λ c. c.name) columns.now))) names.now }
{
    names.iter().any(|name| !has_column(columns, name))
}

/// The names of the columns in order.
pub fn all_names(alloc: Global, columns: &[Column]) -> Result<Items<Name>, NoMemory>
    ensures { IfOk result (λ all. all ≡ map (λ c. c.name) columns.now) }
{
    let mut all = Items::new(alloc);
    for column in columns {
        all.push(column.name.duplicate(alloc)?)?;
    }
    Ok(all)
}

/// A copy of these items.
pub fn copied<T: Duplicate + Drop>(alloc: Global, items: &[T]) -> Result<Items<T>, NoMemory>
    ensures { IfOk result (λ copy. copy ≡ items.now) }
{
    let mut copy = Items::new(alloc);
    for item in items {
        copy.push(item.duplicate(alloc)?)?;
    }
    Ok(copy)
}

/// The new row of a table of these columns, or the first reason against its values.
pub fn new_row(
    alloc: Global,
    next: u64,
    columns: &[Column],
    names: &[Name],
    stated: &[Name],
    values: &[Literal],
) -> Result<Row, RunFault>
    ensures { RowMeans columns.now next names.now stated.now values.now result }
{
    if column_missing(columns, names) {
        return Err(RunFault::Refused(Reason::Missing));
    }
    if repeats(names) {
        return Err(RunFault::Refused(Reason::Exists));
    }
    if stated.len() != values.len() {
        return Err(RunFault::Refused(Reason::WrongKind));
    }
    let row = row_of(alloc, next, stated, values, columns)?;
    if has_bad_null(columns, row.as_slice()) {
        return Err(RunFault::Refused(Reason::NullFound));
    }
    Ok(row)
}

/// The next number after a row that has this value in the numbered column; none where numbers run out.
fn number_behind(
    dialect: Dialect,
    stated: &[Name],
    column: &Column,
    value: &Value,
    next: u64,
) -> Option<u64>
    ensures { IfSome result (λ after.
        after
        ≡ cond (catalogue.is_in column.now.name stated.now)
        (spec.number_after dialect next value.now)
        (next + 1)) }
{
    if is_in(&column.name, stated) {
        return Some(number_after(dialect, next, value));
    }
    next.checked_add(1)
}

/// The next number after a row; none where numbers run out.
pub fn next_after(
    dialect: Dialect,
    stated: &[Name],
    columns: &[Column],
    row: &[Value],
    next: u64,
) -> Option<u64>
    ensures { IfSome result
        (λ after. after ≡ spec.next_of dialect stated.now columns.now row.now next) }
{
    let mut left = columns;
    let mut cells = row;
    while let [column, more @ ..] = left {
        let [value, others @ ..] = cells else {
            return Some(next);
        };
        if column.numbered {
            return number_behind(dialect, stated, column, value, next);
        }
        left = more;
        cells = others;
    }
    Some(next)
}

fn number_after(dialect: Dialect, next: u64, value: &Value) -> u64
    ensures { result ≡ spec.number_after dialect next value.now }
{
    match dialect {
        Dialect::Postgresql => next,
        Dialect::Mysql => match value {
            Value::Int(n) => at_least(next, *n),
            _ => next,
        },
    }
}

fn at_least(next: u64, number: i64) -> u64
    ensures { result ≡ spec.number_after Mysql next (Int number) }
{
    if number < 0 {
        return next;
    }
    let after = number as u64 + 1;
    if next < after { after } else { next }
}
