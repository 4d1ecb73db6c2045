ghost use Rattle.std.specs.List.{filter, flat_map};
ghost use Rattle.std.specs.Prelude.{◌≡◌, ◌++◌, IfOk, OnOk};
ghost use Rattle.lq_base.specs.Name.{is_named};
ghost use Rattle.lq_model.specs.Views.{columns_at};
ghost use Rattle.lq_model.specs.Catalogue.{by_name, picked};

use crate::cell::by_name;
use lq_base::{Duplicate, Items, Name, NoMemory, Value};
use lq_model::Column;
use std::alloc::Global;

fn value_at(
    alloc: Global,
    columns: &[Column],
    row: &[Value],
    name: &Name,
) -> Result<Value, NoMemory>
    ensures { IfOk result (λ value. value ≡ by_name columns.now row.now name.now) }
{
    match by_name(columns, row, name) {
        Some(value) => value.duplicate(alloc),
        None => Ok(Value::Null),
    }
}

/// The values of a row at these columns.
pub fn picked(
    alloc: Global,
    columns: &[Column],
    names: &[Name],
    row: &[Value],
) -> Result<Items<Value>, NoMemory>
    ensures { IfOk result (λ values. values ≡ picked columns.now names.now row.now) }
{
    let mut values = Items::new(alloc);
    for name in names {
        values.push(value_at(alloc, columns, row, name)?)?;
    }
    Ok(values)
}

fn push_named(
    found: &mut Items<Column>,
    alloc: Global,
    name: &Name,
    columns: &[Column],
) -> Result<(), NoMemory>
    ensures { OnOk result
        (found.new ≡ found.old ++ filter (λ column. is_named name.now column.name) columns.now) }
{
    for column in columns {
        if *name == column.name {
            found.push(column.duplicate(alloc)?)?;
        }
    }
    Ok(())
}

/// The columns of these names.
pub fn columns_at(
    alloc: Global,
    names: &[Name],
    columns: &[Column],
) -> Result<Items<Column>, NoMemory>
    ensures { IfOk result (λ found. found ≡ columns_at names.now columns.now) }
{
    let mut found = Items::new(alloc);
    for name in names {
        push_named(&mut found, alloc, name, columns)?;
    }
    Ok(found)
}
