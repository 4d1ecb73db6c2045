//! What drops a unique constraint.
ghost use Rattle.std.specs.Prelude.{◌≡◌, IfOk};
ghost use Rattle.lq_uniques.specs.Drops.{drops_unique};

use lq_base::{Dialect, Duplicate, Name, NoMemory, both};
use lq_model::Statement;
use std::alloc::Global;

/// Drops the unique constraint of this name.
pub(crate) fn unique_drop(
    alloc: Global,
    dialect: Dialect,
    table: &Name,
    name: &Name,
) -> Result<Statement, NoMemory>
    ensures { IfOk result (λ made. made ≡ drops_unique dialect table.now name.now) }
{
    let (table, name) = both(table.duplicate(alloc), name.duplicate(alloc))?;
    match dialect {
        Dialect::Postgresql => Ok(Statement::DropConstraint { table, name }),
        Dialect::Mysql => Ok(Statement::DropUnique { table, name }),
    }
}
