//! What drops a primary key.
ghost use Rattle.std.specs.Prelude.{◌≡◌, IfOk};
ghost use Rattle.lq_primary_keys.specs.Drops.{drops_key};

use lq_base::{Dialect, Duplicate, Name, NoMemory, both};
use lq_model::Statement;
use std::alloc::Global;

/// Drops the primary key of a table, which has this name.
pub(crate) fn key_drop(
    alloc: Global,
    dialect: Dialect,
    table: &Name,
    name: &Name,
) -> Result<Statement, NoMemory>
    ensures { IfOk result (λ made. made ≡ drops_key dialect table.now name.now) }
{
    match dialect {
        Dialect::Postgresql => {
            let (table, name) = both(table.duplicate(alloc), name.duplicate(alloc))?;
            Ok(Statement::DropConstraint { table, name })
        }
        Dialect::Mysql => {
            let table = table.duplicate(alloc)?;
            Ok(Statement::DropPrimaryKey { table })
        }
    }
}
