ghost use Rattle.std.specs.List.{list_any};
ghost use Rattle.std.specs.Prelude.{◌≡◌, ◌&&◌, IfOk, true};
ghost use Rattle.lq_base.specs.Name.{is_named};
ghost use Rattle.lq_model.specs.Catalogue.{the_table};
ghost use Rattle.lq_model.specs.Rows as spec;
ghost use Rattle.lq_model.specs.Plan.{decide};
ghost use Rattle.lq_model.specs.Catalogue as rows;
ghost use Rattle.lq_model.specs.Sound.{IsSound};
ghost use Rattle.lq_model.specs.declared.caller.By.TheVariants.{Program};
ghost use Rattle.lq_rows.specs.Stored.{Answers};
ghost use Rattle.lq_rowops.specs.InsertTests.{PlansRow, inserted};
ghost use Rattle.lq_decide.specs.Faults.{is_orphan, lacks_parent_of};

use crate::row::{all_names, copied, new_row, next_after};
use lq_base::{Dialect, Literal, Name, NoMemory, Reason, Value};
use lq_model::{By, Column, ForeignKey};
use lq_parts::{Parts, RunFault};
use lq_query::is_reserved;
use lq_rows::{Held, Row, Values, has_null, picked};
use std::alloc::Global;

/// Whether two rows of values are equal, where none of them is null.
fn same_values(a: &[Value], b: &[Value]) -> bool
    ensures { result ≡ rows.same_values a.now b.now }
{
    let mut left = a;
    let mut right = b;
    while let [x, more @ ..] = left {
        let [y, others @ ..] = right else {
            return false;
        };
        if !same_value(x, y) {
            return false;
        }
        left = more;
        right = others;
    }
    right.is_empty()
}

fn same_value(a: &Value, b: &Value) -> bool
    ensures { result ≡ rows.same_value a.now b.now }
{
    match (a, b) {
        (Value::Int(a), Value::Int(b)) => a == b,
        (Value::Text(a), Value::Text(b)) => a == b,
        (Value::Bool(a), Value::Bool(b)) => a == b,
        (Value::Moment(a), Value::Moment(b)) => a == b,
        (
            Value::Fixed { units, scale },
            Value::Fixed {
                units: other,
                scale: other_scale,
            },
        ) => units == other && scale == other_scale,
        _ => false,
    }
}

/// Whether the new row is its own parent.
fn is_own_parent(
    alloc: Global,
    table: &Name,
    columns: &[Column],
    row: &[Value],
    key: &ForeignKey,
    own: &[Value],
) -> Result<bool, NoMemory>
    ensures { IfOk result (λ is.
        is
        ≡
        (is_named table.now key.now.table
        && rows.same_values own.now (rows.picked columns.now key.now.targets row.now))) }
{
    if *table != key.table {
        return Ok(false);
    }
    let targets = picked(alloc, columns, key.targets.as_slice(), row)?;
    Ok(same_values(own, targets.as_slice()))
}

/// Whether the new row has no parent by a foreign key of its table.
fn lacks_parent(
    parts: &mut Parts,
    alloc: Global,
    table: &Name,
    columns: &[Column],
    row: &[Value],
    key: &ForeignKey,
) -> Result<bool, NoMemory>
    requires { columns.now ≡ (the_table parts.old.now table.now).columns }
    ensures found { IfOk result (λ found.
        found
        ≡ lacks_parent_of parts.old.now table.now (the_table parts.old.now table.now) row.now
        key.now) }
    ensures same { parts.new ≡ parts.old }
{
    let own = picked(alloc, columns, key.columns.as_slice(), row)?;
    if has_null(own.as_slice()) || is_own_parent(alloc, table, columns, row, key, own.as_slice())? {
        return Ok(false);
    }
    let found = parts.has_row(alloc, &key.table, key.targets.as_slice(), &Values::new(own))?;
    Ok(!found)
}

/// Whether the new row has no parent by one of these foreign keys.
fn lacks_one(
    parts: &mut Parts,
    alloc: Global,
    table: &Name,
    columns: &[Column],
    row: &[Value],
    keys: &[ForeignKey],
) -> Result<bool, NoMemory>
    requires { columns.now ≡ (the_table parts.old.now table.now).columns }
    ensures found { IfOk result (λ found.
        found
        ≡ list_any
        (lacks_parent_of parts.old.now table.now (the_table parts.old.now table.now) row.now)
        keys.now) }
    ensures same { parts.new ≡ parts.old }
{
    for key in keys {
        if lacks_parent(parts, alloc, table, columns, row, key)? {
            return Ok(true);
        }
    }
    Ok(false)
}

/// Whether the new row has no parent by a foreign key of its table, which is there.
fn is_orphan(
    parts: &mut Parts,
    alloc: Global,
    table: &Name,
    row: &[Value],
) -> Result<bool, NoMemory>
    ensures found { IfOk result (λ found.
        found ≡ is_orphan parts.old.now table.now (the_table parts.old.now table.now) row.now) }
    ensures same { parts.new ≡ parts.old }
{
    let Some(held) = parts.table(table) else {
        return Ok(false);
    };
    if held.foreign_keys().is_empty() {
        return Ok(false);
    }
    let columns = copied(alloc, held.columns())?;
    let keys = copied(alloc, held.foreign_keys())?;
    lacks_one(
        parts,
        alloc,
        table,
        columns.as_slice(),
        row,
        keys.as_slice(),
    )
}

/// The new row of the table, the table's next number after it, and whether the table is full.
#[derive(Drop)]
struct Planned {
    row: Row,
    next: u64,
    is_full: bool,
}

fn plan(
    alloc: Global,
    dialect: Dialect,
    held: &Held,
    columns: &[Name],
    values: &[Literal],
) -> Result<Planned, RunFault>
    ensures { PlansRow dialect held.now.now columns.now values.now result }
{
    if columns.is_empty() {
        let all = all_names(alloc, held.columns())?;
        return plan_stated(alloc, dialect, held, columns, all.as_slice(), values);
    }
    plan_stated(alloc, dialect, held, columns, columns, values)
}

/// The same by the columns that are stated: all in order where none is.
fn plan_stated(
    alloc: Global,
    dialect: Dialect,
    held: &Held,
    columns: &[Name],
    stated: &[Name],
    values: &[Literal],
) -> Result<Planned, RunFault>
    requires { stated.now ≡ spec.stated held.now.now columns.now }
    ensures { PlansRow dialect held.now.now columns.now values.now result }
{
    let row = match new_row(alloc, held.next(), held.columns(), columns, stated, values) {
        Ok(row) => row,
        Err(fault) => return Err(fault),
    };
    let Some(next) = next_after(dialect, stated, held.columns(), row.as_slice(), held.next()) else {
        return Err(RunFault::OutOfMemory);
    };
    Ok(Planned {
        row,
        next,
        is_full: held.len() >= 100_000,
    })
}

/// Inserts a row, by what a new row is tested for.
fn put_row(
    parts: &mut Parts,
    alloc: Global,
    dialect: Dialect,
    table: &Name,
    columns: &[Name],
    values: &[Literal],
) -> Result<u64, RunFault>
    ensures { Answers (inserted Program dialect table.now columns.now values.now parts.old.now)
        parts.old parts.new result }
{
    let Some(held) = parts.table(table) else {
        return Err(RunFault::Refused(Reason::Missing));
    };
    let planned = match plan(alloc, dialect, held, columns, values) {
        Ok(planned) => planned,
        Err(fault) => return Err(fault),
    };
    if parts.is_twin(alloc, table, planned.row.as_slice())? {
        return Err(RunFault::Refused(Reason::Duplicate));
    }
    if is_orphan(parts, alloc, table, planned.row.as_slice())? {
        return Err(RunFault::Refused(Reason::NoParent));
    }
    if planned.is_full {
        return Err(RunFault::Refused(Reason::TooManyRows));
    }
    parts.append(alloc, table, planned.row, planned.next)?;
    Ok(1)
}

/// INSERT on a sound catalogue, on someone's behalf: it adds one row.
pub fn insert_into(
    parts: &mut Parts,
    alloc: Global,
    by: By,
    dialect: Dialect,
    table: &Name,
    columns: &[Name],
    values: &[Literal],
) -> Result<u64, RunFault>
    requires { IsSound dialect parts.old.now }
    ensures { Answers
        (decide (spec.insert by dialect table.now columns.now values.now parts.old.now)) parts.old
        parts.new result }
{
    if is_reserved(by, table) {
        return Err(RunFault::Refused(Reason::Reserved));
    }
    put_row(parts, alloc, dialect, table, columns, values)
}
