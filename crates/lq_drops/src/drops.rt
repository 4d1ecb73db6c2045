ghost use Rattle.std.specs.Prelude.{◌≡◌, IfOk};
ghost use Rattle.lq_drops.specs.Drops.{drops_foreign, drops_index};

use lq_base::{Dialect, Duplicate, Name, NoMemory, both, placed};
use lq_model::Statement;
use std::alloc::Global;

/// Drops the foreign key of this name.
pub fn foreign_drop(
    alloc: Global,
    dialect: Dialect,
    table: &Name,
    name: &Name,
) -> Result<Statement, NoMemory>
    ensures { IfOk result (λ made. made ≡ drops_foreign dialect table.now name.now) }
{
    let (table, name) = both(table.duplicate(alloc), name.duplicate(alloc))?;
    match dialect {
        Dialect::Postgresql => Ok(Statement::DropConstraint { table, name }),
        Dialect::Mysql => Ok(Statement::DropForeignKey { table, name }),
    }
}

/// Drops the index of this name on this table: under PostgreSQL by its name in the table's schema,
/// under MySQL with the table.
pub fn index_drop(
    alloc: Global,
    dialect: Dialect,
    name: &Name,
    table: &Name,
) -> Result<Statement, NoMemory>
    ensures { IfOk result (λ made. made ≡ drops_index dialect name.now table.now) }
{
    match dialect {
        Dialect::Postgresql => {
            let name = placed(alloc, table, name)?;
            Ok(Statement::DropIndex { name, table: None })
        }
        Dialect::Mysql => {
            let (name, table) = both(name.duplicate(alloc), table.duplicate(alloc))?;
            Ok(Statement::DropIndex {
                name,
                table: Some(table),
            })
        }
    }
}
