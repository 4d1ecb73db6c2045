ghost use Rattle.std.specs.List.{list_any};
ghost use Rattle.std.specs.Prelude.{◌≡◌, IfOk, map, not};
ghost use Rattle.lq_base.specs.Spells.{Goes};
ghost use Rattle.lq_decide.specs.Faults.{meets, names_set};
ghost use Rattle.lq_model.specs.Kinds.{kind_in};
ghost use Rattle.lq_model.specs.Catalogue as spaces;
ghost use Rattle.lq_model.specs.Rows.{set_value_of};
ghost use Rattle.lq_rowops.specs.InsertTests.{AreSet};

use lq_base::{IntoFault, Items, Kind, Literal, Name, NoMemory, Value, into_kind};
use lq_model::Column;
use lq_rows::has_column;
use std::alloc::Global;

/// Whether the column of the name is set.
fn is_set(name: &Name, sets: &[(Name, Literal)]) -> bool
    ensures { result ≡ spaces.is_in name.now (names_set sets.now) }
{
    for set in sets {
        if *name == set.0 {
            return true;
        }
    }
    false
}

/// Whether a column is set twice.
pub fn repeats_set(sets: &[(Name, Literal)]) -> bool
    ensures { result ≡ spaces.repeats (names_set sets.now) }
{
    let mut left = sets;
    while let [first, rest @ ..] = left {
        if is_set(&first.0, rest) {
            return true;
        }
        left = rest;
    }
    false
}

/// Whether a column that is set is missing.
pub fn lacks_set(columns: &[Column], sets: &[(Name, Literal)]) -> bool
    ensures { result
        ≡ list_any (λ n. not (spaces.is_in n (map (λ c. c.name) columns.now)))
        (names_set sets.now) }
{
    for set in sets {
        if !has_column(columns, &set.0) {
            return true;
        }
    }
    false
}

/// Whether one of the columns is set.
pub fn meets(sets: &[(Name, Literal)], names: &[Name]) -> bool
    ensures { result ≡ meets (names_set sets.now) names.now }
{
    names.iter().any(|name| is_set(name, sets))
}

/// The kind of the column of the name, where there is one.
fn kind_in(columns: &[Column], name: &Name) -> Kind
    ensures { result ≡ kind_in name.now columns.now }
{
    for column in columns {
        if *name == column.name {
            return column.kind;
        }
    }
    Kind::Text
}

fn set_value(alloc: Global, columns: &[Column], set: &(Name, Literal)) -> Result<Value, IntoFault>
    ensures { Goes (set_value_of columns.now set.now) result }
{
    into_kind(alloc, &set.1, kind_in(columns, &set.0))
}

/// The values that are set, with a null in place of one that does not go into its column.
#[derive(Drop)]
pub struct SetValues {
    pub values: Items<Value>,
    /// A value is of another kind than its column.
    pub is_wrong: bool,
    /// A value is out of its column's kind.
    pub is_wide: bool,
}

pub fn set_values(
    alloc: Global,
    columns: &[Column],
    sets: &[(Name, Literal)],
) -> Result<SetValues, NoMemory>
    ensures { IfOk result (λ all. AreSet columns.now sets.now all) }
{
    let mut values = Items::new(alloc);
    let mut is_wrong = false;
    let mut is_wide = false;
    for set in sets {
        let value = match set_value(alloc, columns, set) {
            Ok(value) => value,
            Err(IntoFault::OutOfMemory) => return Err(NoMemory),
            Err(IntoFault::WrongKind) => {
                is_wrong = true;
                Value::Null
            }
            Err(IntoFault::TooWide) => {
                is_wide = true;
                Value::Null
            }
        };
        values.push(value)?;
    }
    Ok(SetValues {
        values,
        is_wrong,
        is_wide,
    })
}
