ghost use Rattle.std.specs.Prelude.{◌≡◌, map, IfOk};
ghost use Rattle.lq_track.specs.Lock.{lock_order, lock_value, free};
ghost use Rattle.lq_track.specs.Statements.{lock_made, lock_row_made, log_made, tables};

use crate::lock_column::LockColumn;
use crate::lock_table::{lock_defs, lock_key, lock_names, lock_table};
use crate::log_column::LogColumn;
use crate::log_table::{log_defs, log_table};
use lq_base::{Dialect, Items, Literal, NoMemory};
use lq_model::Statement;
use std::alloc::Global;

/// Makes the table of rows, the table of the lock, and the lock's row, which is free.
pub fn make_tables(alloc: Global, dialect: Dialect) -> Result<Items<Statement>, NoMemory>
    ensures { IfOk result (λ made. made ≡ tables dialect) }
{
    let mut made = Items::new(alloc);
    made.push(make_log(alloc)?)?;
    made.push(make_lock(alloc, dialect)?)?;
    made.push(make_lock_row(alloc)?)?;
    Ok(made)
}

/// Makes the table of rows.
#[tactic(auto, unfolding(crate::specs::Log::log_order))]
pub fn make_log(alloc: Global) -> Result<Statement, NoMemory>
    ensures { IfOk result (λ s. s ≡ log_made) }
{
    Ok(Statement::CreateTable {
        table: log_table(alloc)?,
        columns: log_defs(alloc, &LogColumn::ALL)?,
        key: None,
        uniques: Items::new(alloc),
        foreign: Items::new(alloc),
    })
}

/// Makes the table of the lock.
#[tactic(auto, unfolding(crate::specs::Lock::lock_order))]
pub fn make_lock(alloc: Global, dialect: Dialect) -> Result<Statement, NoMemory>
    ensures { IfOk result (λ s. s ≡ lock_made dialect) }
{
    Ok(Statement::CreateTable {
        table: lock_table(alloc)?,
        columns: lock_defs(alloc, &LockColumn::ALL)?,
        key: Some(lock_key(alloc, dialect)?),
        uniques: Items::new(alloc),
        foreign: Items::new(alloc),
    })
}

/// Makes the lock's row, which is free.
#[tactic(auto, unfolding(crate::specs::Lock::lock_order, crate::specs::Lock::lock_value))]
pub fn make_lock_row(alloc: Global) -> Result<Statement, NoMemory>
    ensures { IfOk result (λ s. s ≡ lock_row_made) }
{
    Ok(Statement::Insert {
        table: lock_table(alloc)?,
        columns: lock_names(alloc, &LockColumn::ALL)?,
        values: free_values(alloc)?,
    })
}

#[tactic(auto, unfolding(crate::specs::Lock::lock_order, crate::specs::Lock::lock_value))]
fn free_values(alloc: Global) -> Result<Items<Literal>, NoMemory>
    ensures { IfOk result (λ values. values ≡ map (lock_value free) lock_order) }
{
    let mut values = Items::new(alloc);
    values.push(Literal::Int(1))?;
    values.push(Literal::Bool(false))?;
    values.push(Literal::Null)?;
    values.push(Literal::Null)?;
    Ok(values)
}
