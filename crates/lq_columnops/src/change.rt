ghost use Rattle.std.specs.Prelude.{◌≡◌, IfOk, OnErr, OnOk, false, is_some, map, true};
ghost use Rattle.lq_chain.specs.History.{changed};
ghost use Rattle.lq_model.specs.Catalogue.{table_of, the_table, with_table};
ghost use Rattle.lq_model.specs.Tables.{changed_at, with_changed};
ghost use Rattle.lq_rows.specs.Stored.{shape_of};
ghost use Rattle.lq_columnops.specs.OnColumn.{applied, Done};

use lq_arm::Tests;
use lq_base::{Duplicate, Items, Kind, Name, NoMemory, Value};
use lq_model::Column;
use lq_parts::{Parts, RunFault};
use lq_rows::Shape;
use std::alloc::Global;

/// What a statement changes of a column in its place.
pub enum Change {
    /// Whether null is allowed.
    Nullable(bool),
    /// The kind and whether null is allowed; default and numbering are cleared.
    Modified(Kind, bool),
    Default(Option<Value>),
}

// Written out, so that each place that lets one go is one call.
impl Drop for Change {
    fn drop(self) {
        match self {
            Change::Nullable(_) => (),
            Change::Modified(_, _) => (),
            Change::Default(it) => drop(it),
        }
    }
}

impl Change {
    /// The column with the change.
    fn apply(&self, column: Column, alloc: Global) -> Result<Column, NoMemory>
        ensures { IfOk result (λ changed. changed ≡ applied self.now column) }
    {
        let mut changed = column;
        match self {
            Change::Nullable(nullable) => {
                changed.nullable = *nullable;
            }
            Change::Modified(kind, nullable) => {
                changed.kind = *kind;
                changed.nullable = *nullable;
                changed.default = None;
                changed.numbered = false;
            }
            Change::Default(value) => {
                changed.default = value.duplicate(alloc)?;
            }
        }
        Ok(changed)
    }
}

fn changed_column(
    alloc: Global,
    column: &Column,
    name: &Name,
    change: &Change,
) -> Result<Column, NoMemory>
    ensures { IfOk result
        (λ changed. changed ≡ changed_at name.now (applied change.now) column.now) }
{
    let copy = column.duplicate(alloc)?;
    if *name != column.name {
        return Ok(copy);
    }
    change.apply(copy, alloc)
}

fn changed_columns(
    alloc: Global,
    columns: &[Column],
    name: &Name,
    change: &Change,
) -> Result<Items<Column>, NoMemory>
    ensures { IfOk result
        (λ all. all ≡ map (changed_at name.now (applied change.now)) columns.now) }
{
    let mut all = Items::new(alloc);
    for column in columns {
        all.push(changed_column(alloc, column, name, change)?)?;
    }
    Ok(all)
}

/// A copy of what the table is but for its rows; nothing where there is none.
pub fn copied_shape(parts: &Parts, alloc: Global, table: &Name) -> Result<Shape, NoMemory>
    ensures { IfOk result (λ shape. shape ≡ shape_of (the_table parts.now.now table.now)) }
{
    match parts.table(table) {
        None => Ok(Shape {
            columns: Items::new(alloc),
            key: None,
            uniques: Items::new(alloc),
            foreign: Items::new(alloc),
            indexes: Items::new(alloc),
        }),
        Some(held) => held.shape().duplicate(alloc),
    }
}

/// Changes the column of the name, or changes nothing.
fn change_column(
    parts: &mut Parts,
    alloc: Global,
    table: &Name,
    column: &Name,
    change: &Change,
) -> Result<(), NoMemory>
    requires { is_some (table_of parts.old.now table.now) ≡ true }
    ensures ok { OnOk result
        (parts.new
        ≡ changed parts.old
        (with_table parts.old.now table.now
        (with_changed column.now (applied change.now)
        (the_table parts.old.now table.now)))) }
    ensures err { OnErr result (parts.new ≡ parts.old) }
{
    let mut shape = copied_shape(parts, alloc, table)?;
    shape.columns = changed_columns(alloc, shape.columns.as_slice(), column, change)?;
    parts.shape_table(table, shape)
}

/// Changes the column of the name, unless a test is against it.
#[tactic(auto, using(lq_rows::proofs::Continued::stays))]
pub fn change_unless(
    parts: &mut Parts,
    alloc: Global,
    tests: &Tests,
    table: &Name,
    column: &Name,
    change: &Change,
) -> Result<u64, RunFault>
    requires { tests.now.missing ≡ false → is_some (table_of parts.old.now table.now) ≡ true }
    ensures { Done tests.now
        (with_table parts.old.now table.now
        (with_changed column.now (applied change.now) (the_table parts.old.now table.now)))
        parts.old parts.new result }
{
    match tests.verdict() {
        Ok(()) => {}
        Err(fault) => return Err(fault),
    }
    change_column(parts, alloc, table, column, change)?;
    Ok(0)
}
