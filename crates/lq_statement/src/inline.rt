ghost use Rattle.std.specs.Prelude.{◌≡◌, [], ◌∷◌, IfOk, None};
ghost use Rattle.lq_model.specs.SqlTable as spec;
ghost use Rattle.lq_statement.specs.Clauses.{Settles};

use crate::name::{foreign_name, key_name, unique_name};
use lq_base::{Dialect, Duplicate, Items, Name, NoMemory};
use lq_model::{ForeignKey, Key, ParseFault, StatedColumn, Target, Unique};
use std::alloc::Global;

fn one(alloc: Global, name: &Name) -> Result<Items<Name>, NoMemory>
    ensures { IfOk result (λ names. names ≡ name.now ∷ []) }
{
    let mut names = Items::new(alloc);
    names.push(name.duplicate(alloc)?)?;
    Ok(names)
}

/// The key that a column's clauses state.
#[tactic(auto, unfolding(lq_model::specs::SqlTable::column_key))]
pub fn column_key(
    alloc: Global,
    dialect: Dialect,
    table: &Name,
    column: &StatedColumn,
) -> Result<Option<Key>, ParseFault>
    ensures { Settles (spec.column_key dialect table.now column.now) result }
{
    if !column.key {
        return Ok(None);
    }
    let columns = one(alloc, &column.name)?;
    let name = key_name(alloc, dialect, table)?;
    Ok(Some(Key { name, columns }))
}

/// The unique constraint that a column's clauses state.
#[tactic(auto, unfolding(lq_model::specs::SqlTable::column_unique))]
pub fn column_unique(
    alloc: Global,
    table: &Name,
    column: &StatedColumn,
) -> Result<Option<Unique>, ParseFault>
    ensures { Settles (spec.column_unique table.now column.now) result }
{
    if !column.unique {
        return Ok(None);
    }
    let columns = one(alloc, &column.name)?;
    let name = unique_name(alloc, table, columns.as_slice())?;
    Ok(Some(Unique { name, columns }))
}

#[tactic(auto, unfolding(lq_model::specs::SqlTable::foreign_to))]
fn foreign_to(
    alloc: Global,
    table: &Name,
    column: &Name,
    target: &Target,
) -> Result<Option<ForeignKey>, ParseFault>
    ensures { Settles (spec.foreign_to table.now column.now target.now) result }
{
    let columns = one(alloc, column)?;
    let name = foreign_name(alloc, table, columns.as_slice())?;
    Ok(Some(ForeignKey {
        name,
        columns,
        table: target.table.duplicate(alloc)?,
        targets: one(alloc, &target.column)?,
        cascade: false,
    }))
}

/// The foreign key that a column's clauses state.
#[tactic(auto, unfolding(lq_model::specs::SqlTable::column_foreign))]
pub fn column_foreign(
    alloc: Global,
    table: &Name,
    column: &StatedColumn,
) -> Result<Option<ForeignKey>, ParseFault>
    ensures { Settles (spec.column_foreign table.now column.now.name column.now.target) result }
{
    match &column.target {
        None => Ok(None),
        Some(target) => foreign_to(alloc, table, &column.name, target),
    }
}
