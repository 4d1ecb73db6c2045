ghost use Rattle.std.specs.Prelude.{◌≡◌, IfOk, cond, false};
ghost use Rattle.lq_model.specs.Catalogue.{is_in};
ghost use Rattle.lq_shapes.specs.Created.{IsDefined, IsKeyed, key_columns, shape_with};

use crate::named::push_names;
use crate::names::Names;
use crate::stated::{NewColumn, new_column};
use lq_base::{Duplicate, Items, Name, NoMemory};
use lq_model::{Column, ColumnDef, ForeignKey, Key, Unique};
use lq_rows::Shape;
use std::alloc::Global;

/// What CREATE TABLE says of the table.
#[derive(Clone, Copy)]
pub struct NewTable<'a> {
    pub name: &'a Name,
    pub columns: &'a [ColumnDef],
    pub key: &'a Option<Key>,
    pub uniques: &'a [Unique],
    pub foreign: &'a [ForeignKey],
}

/// The columns of a new table, and whether their defaults go into their kinds.
#[derive(Drop)]
pub struct Defined {
    pub columns: Items<Column>,
    pub is_wrong: bool,
    pub is_wide: bool,
}

/// The names of the key's columns, for looking up.
fn names_of_key<'a>(alloc: Global, key: &'a Option<Key>) -> Result<Names<'a>, NoMemory>
    ensures { IfOk result (λ it. it ≡ key_columns key.now) }
{
    let mut names = Items::new(alloc);
    if let Some(key) = key {
        push_names(&mut names, key.columns.as_slice())?;
    }
    let found = Names::new(alloc, names)?;
    Ok(found)
}

/// The column, not null where the key has it.
fn keyed(names: &Names<'_>, column: Column) -> Column
    ensures { result
        ≡ cond (is_in column.name names.now) (record column { nullable = false }) column }
{
    let mut made = column;
    if names.has(&made.name) {
        made.nullable = false;
    }
    made
}

/// The column that is made of what the statement says of it.
fn define_one(
    alloc: Global,
    names: &Names<'_>,
    key: &Option<Key>,
    def: &ColumnDef,
) -> Result<NewColumn, NoMemory>
    requires { names.now ≡ key_columns key.now }
    ensures { IfOk result (λ new. IsKeyed key.now def.now new) }
{
    let new = new_column(alloc, def)?;
    match key {
        None => Ok(new),
        Some(_) => Ok(NewColumn {
            column: keyed(names, new.column),
            is_wrong: new.is_wrong,
            is_wide: new.is_wide,
        }),
    }
}

/// The columns that are made of what the statement says.
pub fn define(alloc: Global, defs: &[ColumnDef], key: &Option<Key>) -> Result<Defined, NoMemory>
    ensures { IfOk result (λ it. IsDefined key.now defs.now it) }
{
    let names = names_of_key(alloc, key)?;
    let mut columns = Items::new(alloc);
    let mut is_wrong = false;
    let mut is_wide = false;
    for def in defs {
        let new = define_one(alloc, &names, key, def)?;
        columns.push(new.column)?;
        is_wrong = is_wrong | new.is_wrong;
        is_wide = is_wide | new.is_wide;
    }
    Ok(Defined {
        columns,
        is_wrong,
        is_wide,
    })
}

fn copied<T: Duplicate + Drop>(alloc: Global, items: &[T]) -> Result<Items<T>, NoMemory>
    ensures { IfOk result (λ copy. copy ≡ items.now) }
{
    let mut copy = Items::new(alloc);
    for item in items {
        copy.push(item.duplicate(alloc)?)?;
    }
    Ok(copy)
}

/// The new table of these columns.
pub fn new_shape(
    alloc: Global,
    new: &NewTable<'_>,
    columns: Items<Column>,
) -> Result<Shape, NoMemory>
    ensures { IfOk result (λ shape.
        shape ≡ shape_with columns new.now.key.now new.now.uniques.now new.now.foreign.now) }
{
    let key = new.key.duplicate(alloc)?;
    let uniques = copied(alloc, new.uniques)?;
    let foreign = copied(alloc, new.foreign)?;
    Ok(Shape {
        columns,
        key,
        uniques,
        foreign,
        indexes: Items::new(alloc),
    })
}
