ghost use Rattle.std.specs.List.{list_any};
ghost use Rattle.std.specs.Option.{option_copied, unwrap_or};
ghost use Rattle.std.specs.Prelude.{◌≡◌, IfOk, map};
ghost use Rattle.lq_base.specs.declared.value.Value.TheVariants.{Null};
ghost use Rattle.lq_model.specs.Catalogue as spaces;
ghost use Rattle.lq_model.specs.Catalogue.{by_name, is_null, picked};

use crate::held::Row;
use lq_base::{Duplicate, Items, Name, NoMemory, Value};
use lq_model::Column;
use std::alloc::Global;

/// The value of a row at a column's name.
pub fn by_name<'a>(columns: &[Column], row: &'a [Value], name: &Name) -> Option<&'a Value>
    ensures { unwrap_or (option_copied result) Null ≡ by_name columns.now row.now name.now }
{
    let mut left = row;
    for column in columns {
        let Some((value, after)) = left.split_first() else {
            return None;
        };
        if *name == column.name {
            return Some(value);
        }
        left = after;
    }
    None
}

fn value_at(
    alloc: Global,
    columns: &[Column],
    row: &[Value],
    name: &Name,
) -> Result<Value, NoMemory>
    ensures { IfOk result (λ value. value ≡ by_name columns.now row.now name.now) }
{
    match by_name(columns, row, name) {
        Some(value) => value.duplicate(alloc),
        None => Ok(Value::Null),
    }
}

/// The values of a row at these columns.
pub fn picked(
    alloc: Global,
    columns: &[Column],
    names: &[Name],
    row: &[Value],
) -> Result<Row, NoMemory>
    ensures { IfOk result (λ values. values ≡ picked columns.now names.now row.now) }
{
    let mut values = Vec::with_capacity(alloc, names.len())?;
    for name in names {
        values.push(value_at(alloc, columns, row, name)?)?;
    }
    Ok(Items::from_vec(values))
}

pub fn is_null(value: &Value) -> bool
    ensures { result ≡ is_null value.now }
{
    matches!(value, Value::Null)
}

pub fn has_null(row: &[Value]) -> bool
    ensures { result ≡ list_any is_null row.now }
{
    row.iter().any(|value| is_null(value))
}

/// Whether a row has a null, or nothing, at a column's name.
pub fn is_null_at(columns: &[Column], row: &[Value], name: &Name) -> bool
    ensures { result ≡ is_null (by_name columns.now row.now name.now) }
{
    match by_name(columns, row, name) {
        Some(value) => is_null(value),
        None => true,
    }
}

/// Whether one of the columns has the name.
pub fn has_column(columns: &[Column], name: &Name) -> bool
    ensures { result ≡ spaces.is_in name.now (map (λ c. c.name) columns.now) }
{
    for column in columns {
        if *name == column.name {
            return true;
        }
    }
    false
}
