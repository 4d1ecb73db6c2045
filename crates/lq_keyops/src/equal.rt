ghost use Rattle.std.specs.BTreeSet.{contains};
ghost use Rattle.std.specs.List.{list_any};
ghost use Rattle.std.specs.Prelude.{◌≡◌, ◌||◌, IfOk, OnOk, List, map};
ghost use Rattle.lq_base.specs.declared.value.Value.{Value as Data};
ghost use Rattle.lq_decide.specs.Faults.{are_twins, has_null_in};
ghost use Rattle.lq_model.specs.Catalogue.{by_name, has_equals, is_null, picked, same_values, column_missing};
ghost use Rattle.lq_rows.specs.Stored.{values_cmp, ShowsRows};
ghost use Rattle.lq_keyops.specs.Targets.{HasNoNull};

use lq_arm::lacks_column;
use lq_base::{Name, NoMemory, Value};
use lq_chain::Chain;
use lq_model::Column;
use lq_rows::{Held, Row, Values, by_name, has_null, is_null, picked};
use std::alloc::Global;
use std::collections::BTreeSet;

/// Whether values equal to a row's in some columns were met. They are afterwards, unless one of them is
/// null.
fn was_met(
    alloc: Global,
    met: &mut BTreeSet<Values>,
    columns: &[Column],
    names: &[Name],
    row: &[Value],
) -> Result<bool, NoMemory>
    ensures was { IfOk result (λ was.
        HasNoNull met.old
        → was ≡ contains values_cmp met.old (picked columns.now names.now row.now)) }
    ensures after { OnOk result
        ((values : List Data)
        → contains values_cmp met.new values
        ≡
        (same_values values (picked columns.now names.now row.now)
        || contains values_cmp met.old values)) }
{
    let values = picked(alloc, columns, names, row)?;
    if has_null(values.as_slice()) {
        return Ok(false);
    }
    let new = met.insert(Values::new(values))?;
    Ok(!new)
}

/// Whether two of the rows are equal in some columns: in O(n log n).
fn has_equals_in(
    alloc: Global,
    columns: &[Column],
    names: &[Name],
    rows: &Chain<Row>,
) -> Result<bool, NoMemory>
    ensures { IfOk result
        (λ found. found ≡ has_equals (map (picked columns.now names.now) rows.now.now)) }
{
    let mut met = BTreeSet::new(alloc);
    for row in rows.iter() {
        if was_met(alloc, &mut met, columns, names, row.as_slice())? {
            return Ok(true);
        }
    }
    Ok(false)
}

/// Whether two rows of the table are equal in these columns.
pub fn has_twins(alloc: Global, held: &Held, names: &[Name]) -> Result<bool, NoMemory>
    ensures { IfOk result (λ found. found ≡ are_twins held.now.now names.now) }
{
    let found = has_equals_in(alloc, held.columns(), names, held.rows())?;
    Ok(found)
}

/// Whether the table lacks a column of one of these names.
pub fn lacks_one(alloc: Global, held: &Held, names: &[Name]) -> Result<bool, NoMemory>
    ensures { IfOk result (λ lacks. lacks ≡ column_missing held.now.now names.now) }
{
    let lacks = lacks_column(alloc, held.columns(), names)?;
    Ok(lacks)
}

/// The values of the rows in some columns, for looking up.
pub fn values_of(
    alloc: Global,
    columns: &[Column],
    names: &[Name],
    rows: &Chain<Row>,
) -> Result<BTreeSet<Values>, NoMemory>
    ensures { IfOk result (λ known. ShowsRows columns.now names.now rows.now.now known) }
{
    let mut known = BTreeSet::new(alloc);
    for row in rows.iter() {
        was_met(alloc, &mut known, columns, names, row.as_slice())?;
    }
    Ok(known)
}

fn is_null_at(columns: &[Column], row: &[Value], name: &Name) -> bool
    ensures { result ≡ is_null (by_name columns.now row.now name.now) }
{
    match by_name(columns, row, name) {
        Some(value) => is_null(value),
        None => true,
    }
}

fn has_null_at(columns: &[Column], names: &[Name], row: &[Value]) -> bool
    ensures { result ≡ list_any (λ n. is_null (by_name columns.now row.now n)) names.now }
{
    names.iter().any(|name| is_null_at(columns, row, name))
}

fn null_found(columns: &[Column], names: &[Name], rows: &Chain<Row>) -> bool
    ensures { result
        ≡ list_any (λ row. list_any (λ n. is_null (by_name columns.now row n)) names.now)
        rows.now.now }
{
    for row in rows.iter() {
        if has_null_at(columns, names, row.as_slice()) {
            return true;
        }
    }
    false
}

/// Whether a row of the table has a null in one of these columns.
pub fn has_null_in(held: &Held, names: &[Name]) -> bool
    ensures { result ≡ has_null_in held.now.now names.now }
{
    null_found(held.columns(), names, held.rows())
}
