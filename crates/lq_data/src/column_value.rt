//! A column with the value that it takes.
ghost use Rattle.std.specs.Prelude.{◌≡◌, IfOk};
ghost use Rattle.lq_data.specs.ColumnValue.{literal_in, literals_of, names_of, set_in, sets_of};

use lq_base::{Duplicate, Items, KindFault, Literal, Name, NoMemory};
use lq_model::{Canon, Field, Fields, Written};
use lq_tree::{Given, GivenValue, Node, known, required};
use lq_value_keys::{stated_value, value_at};
use std::alloc::Global;

/// A column with the value that it takes in a row.
#[derive(Drop)]
pub struct ColumnValue {
    pub name: Name,
    /// Null where none is stated.
    pub value: Option<GivenValue>,
}

const KEYS: [&str; 6] = [
    "name",
    "value",
    "valueNumeric",
    "valueBoolean",
    "valueDate",
    "remarks",
];

impl Given for ColumnValue {
    ghost use Rattle.lq_data.specs.ColumnValue.{column_value, is_column_value};

    ghost of = { column_value };

    ghost fits = { is_column_value };

    #[tactic(auto, unfolding(crate::specs::ColumnValue::column_value))]
    fn given(alloc: Global, node: &Node) -> Result<ColumnValue, KindFault> {
        known(alloc, node, &KEYS)?;
        let name = required(alloc, node, "name")?;
        let value = stated_value(alloc, node)?;
        Ok(ColumnValue { name, value })
    }
}

impl Written for ColumnValue {
    ghost use Rattle.lq_data.specs.ColumnValue.{column_rows};

    ghost rows = { column_rows };

    fn write(&self, to: &mut Canon) -> Result<(), NoMemory> {
        let name = [("name", Some(Field::Name(&self.name)))];
        (Fields(&name), value_at(self.value.as_ref())).write(to)
    }
}

impl ColumnValue {
    fn literal(&self, alloc: Global) -> Result<Literal, NoMemory>
        ensures { IfOk result (λ made. made ≡ literal_in self.now) }
    {
        match &self.value {
            Some(value) => value.literal(alloc),
            None => Ok(Literal::Null),
        }
    }

    fn set(&self, alloc: Global) -> Result<(Name, Literal), NoMemory>
        ensures { IfOk result (λ made. made ≡ set_in self.now) }
    {
        Ok((self.name.duplicate(alloc)?, self.literal(alloc)?))
    }
}

/// The names of the columns in order.
pub(crate) fn names_of(alloc: Global, columns: &[ColumnValue]) -> Result<Items<Name>, NoMemory>
    ensures { IfOk result (λ names. names ≡ names_of columns.now) }
{
    let mut names = Items::new(alloc);
    for column in columns {
        names.push(column.name.duplicate(alloc)?)?;
    }
    Ok(names)
}

/// The values of the columns in order.
pub(crate) fn literals_of(
    alloc: Global,
    columns: &[ColumnValue],
) -> Result<Items<Literal>, NoMemory>
    ensures { IfOk result (λ literals. literals ≡ literals_of columns.now) }
{
    let mut literals = Items::new(alloc);
    for column in columns {
        literals.push(column.literal(alloc)?)?;
    }
    Ok(literals)
}

/// The columns in order, each with its value.
pub(crate) fn sets_of(
    alloc: Global,
    columns: &[ColumnValue],
) -> Result<Items<(Name, Literal)>, NoMemory>
    ensures { IfOk result (λ sets. sets ≡ sets_of columns.now) }
{
    let mut sets = Items::new(alloc);
    for column in columns {
        sets.push(column.set(alloc)?)?;
    }
    Ok(sets)
}
