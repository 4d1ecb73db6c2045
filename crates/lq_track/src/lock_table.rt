ghost use Rattle.std.specs.Prelude.{◌≡◌, ◌∷◌, [], map, IfOk, Some};
ghost use Rattle.lq_base.specs.declared.literal.Literal.TheVariants as literal;
ghost use Rattle.lq_model.specs.declared.statement.Statement.TheVariants as statement;
ghost use Rattle.lq_track.specs.Lock.{lock_column, lock_name, lock_table, lock_key, lock_key_name};
ghost use Rattle.lq_base.specs.Moment.{IsMoment};
ghost use Rattle.lq_track.specs.Statements.{lock_test, lock_taken, lock_freed, lock_marked};
ghost use Rattle.lq_track.specs.declared.lock_column.LockColumn.TheVariants as lock;

use crate::literals::{holds, moment_literal, text_literal};
use crate::lock_column::LockColumn;
use crate::name::fixed_name;
use lq_base::{Dialect, Items, Literal, Name, NoMemory, Text};
use lq_model::{ColumnDef, Key, Statement, Test};
use std::alloc::Global;

/// Takes the lock, which is free: at the moment, for the one who takes it.
#[tactic(auto, unfolding(crate::specs::Lock::lock_value))]
pub fn take_lock(alloc: Global, at: i64, by: &Text) -> Result<Statement, NoMemory>
    requires { IsMoment at }
    ensures { IfOk result (λ s. s ≡ lock_taken at by.now) }
{
    let granted = moment_literal(alloc, at)?;
    let by = text_literal(alloc, by)?;
    set_lock(alloc, true, granted, by)
}

/// Writes who holds the lock, and at what statement.
pub fn mark_lock(alloc: Global, by: &Text) -> Result<Statement, NoMemory>
    ensures { IfOk result (λ s. s ≡ lock_marked by.now) }
{
    let mut sets = Items::new(alloc);
    let by = text_literal(alloc, by)?;
    sets.push((LockColumn::LockedBy.name(alloc)?, by))?;
    update_lock(alloc, sets)
}

/// Frees the lock: neither a moment nor a holder stays.
#[tactic(auto, unfolding(crate::specs::Lock::lock_value))]
pub fn free_lock(alloc: Global) -> Result<Statement, NoMemory>
    ensures { IfOk result (λ s. s ≡ lock_freed) }
{
    set_lock(alloc, false, Literal::Null, Literal::Null)
}

fn set_lock(
    alloc: Global,
    locked: bool,
    granted: Literal,
    by: Literal,
) -> Result<Statement, NoMemory>
    ensures { IfOk result (λ s.
        s
        ≡ statement.Update lock_table
        ((lock_name lock.Locked, literal.Bool locked)
        ∷ (lock_name lock.LockGranted, granted)
        ∷ (lock_name lock.LockedBy, by)
        ∷ []) (Some lock_test)) }
{
    let mut sets = Items::new(alloc);
    sets.push((LockColumn::Locked.name(alloc)?, Literal::Bool(locked)))?;
    sets.push((LockColumn::LockGranted.name(alloc)?, granted))?;
    sets.push((LockColumn::LockedBy.name(alloc)?, by))?;
    update_lock(alloc, sets)
}

fn update_lock(alloc: Global, sets: Items<(Name, Literal)>) -> Result<Statement, NoMemory>
    ensures { IfOk result (λ s. s ≡ statement.Update lock_table sets (Some lock_test)) }
{
    Ok(Statement::Update {
        table: lock_table(alloc)?,
        sets,
        test: Some(lock_test(alloc)?),
    })
}

fn lock_test(alloc: Global) -> Result<Test, NoMemory>
    ensures { IfOk result (λ test. test ≡ lock_test) }
{
    let id = LockColumn::Id.name(alloc)?;
    Ok(holds(id, Literal::Int(1)))
}

#[tactic(auto, using(crate::proofs::Names::lock_table_is_name), unfolding(crate::specs::Lock::lock_table))]
pub fn lock_table(alloc: Global) -> Result<Name, NoMemory>
    ensures { IfOk result (λ name. name ≡ lock_table) }
{
    fixed_name(alloc, "DATABASECHANGELOGLOCK")
}

#[tactic(auto, unfolding(crate::specs::Lock::lock_key_name))]
pub fn lock_key_name(dialect: Dialect) -> &'static str
    ensures { result.now ≡ lock_key_name dialect }
{
    match dialect {
        Dialect::Postgresql => "pk_DATABASECHANGELOGLOCK",
        Dialect::Mysql => "PRIMARY",
    }
}

#[tactic(auto, using(crate::proofs::Names::lock_key_name_is_name))]
pub fn lock_key(alloc: Global, dialect: Dialect) -> Result<Key, NoMemory>
    ensures { IfOk result (λ key. key ≡ lock_key dialect) }
{
    let name = fixed_name(alloc, lock_key_name(dialect))?;
    let mut columns = Items::new(alloc);
    columns.push(LockColumn::Id.name(alloc)?)?;
    Ok(Key { name, columns })
}

pub fn lock_defs(alloc: Global, columns: &[LockColumn]) -> Result<Items<ColumnDef>, NoMemory>
    ensures { IfOk result (λ defs. defs ≡ map lock_column columns.now) }
{
    let mut defs = Items::new(alloc);
    for column in columns {
        defs.push(column.def(alloc)?)?;
    }
    Ok(defs)
}

pub fn lock_names(alloc: Global, columns: &[LockColumn]) -> Result<Items<Name>, NoMemory>
    ensures { IfOk result (λ names. names ≡ map lock_name columns.now) }
{
    let mut names = Items::new(alloc);
    for column in columns {
        names.push(column.name(alloc)?)?;
    }
    Ok(names)
}
