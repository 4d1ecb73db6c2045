ghost use Rattle.std.specs.Prelude.{◌≡◌, [], ◌∷◌, map, IfOk, Some};
ghost use Rattle.lq_base.specs.Name.{is_named};
ghost use Rattle.lq_model.specs.Catalogue.{table_of, same_names};
ghost use Rattle.lq_track.specs.Database.{is_key, is_lock, lock_in, lock_in_rows, lock_of, Gives, passes};
ghost use Rattle.lq_track.specs.Lock.{free, lock_column, lock_key, lock_name, lock_order};
ghost use Rattle.lq_track.specs.declared.lock_column.LockColumn.TheVariants.{Id};

use crate::fault::TrackFault;
use crate::lock_column::LockColumn;
use crate::lock_table::{lock_defs, lock_key_name, lock_table};
use crate::stored::{all_rows, are_made, has_no_more, moment_in, text_in};
use lq_base::{Dialect, Items, Lock, Name, NoMemory, Value};
use lq_model::{ColumnDef, Key, Look};
use std::alloc::Global;

/// The lock that the table DATABASECHANGELOGLOCK holds: a free one where the table is missing or has
/// no row. `NotTables` exactly where the table is there and is not as it is made, or its row cannot be
/// read.
pub fn read_lock<K: Look>(alloc: Global, dialect: Dialect, look: &K) -> Result<Lock, TrackFault>
    ensures { Gives (lock_of dialect (K.catalogue look.now)) result }
{
    let table = lock_table(alloc)?;
    if !look.is_table(&table) {
        return Ok(free());
    }
    if !is_lock(alloc, dialect, look, &table)? {
        return Err(TrackFault::NotTables);
    }
    let rows = all_rows(alloc, look, table)?;
    match lock_in_rows(alloc, rows.as_slice())? {
        Some(lock) => Ok(lock),
        None => Err(TrackFault::NotTables),
    }
}

/// Whether the table is there as it is made.
fn is_lock<K: Look>(
    alloc: Global,
    dialect: Dialect,
    look: &K,
    table: &Name,
) -> Result<bool, NoMemory>
    ensures { IfOk result
        (λ is. is ≡ passes (is_lock dialect) (table_of (K.catalogue look.now) table.now)) }
{
    let Some(columns) = look.columns(table) else {
        return Ok(false);
    };
    let defs = made_columns(alloc)?;
    if !are_made(defs.as_slice(), columns) {
        return Ok(false);
    }
    let Some(key) = look.key(table) else {
        return Ok(false);
    };
    if !is_key(dialect, key) {
        return Ok(false);
    }
    Ok(has_no_more(look, table))
}

#[tactic(auto, unfolding(crate::specs::Lock::lock_order))]
fn made_columns(alloc: Global) -> Result<Items<ColumnDef>, NoMemory>
    ensures { IfOk result (λ defs. defs ≡ map lock_column lock_order) }
{
    lock_defs(alloc, &LockColumn::ALL)
}

fn is_key(dialect: Dialect, key: &Key) -> bool
    ensures { result ≡ is_key (lock_key dialect) (Some key.now) }
{
    is_named(lock_key_name(dialect), &key.name) && is_id_alone(key.columns.as_slice())
}

fn is_id_alone(columns: &[Name]) -> bool
    ensures { result ≡ same_names (lock_name Id ∷ []) columns.now }
{
    match columns {
        [column] => is_named(LockColumn::Id.text(), column),
        _ => false,
    }
}

fn is_named(text: &str, name: &Name) -> bool
    ensures { result ≡ is_named text.now name.now }
{
    text == name.as_key()
}

fn free() -> Lock
    ensures { result ≡ free }
{
    Lock {
        locked: false,
        granted: None,
        by: None,
    }
}

fn lock_in_rows(alloc: Global, rows: &[Items<Value>]) -> Result<Option<Lock>, NoMemory>
    ensures { IfOk result (λ lock. lock ≡ lock_in_rows rows.now) }
{
    match rows {
        [] => Ok(Some(free())),
        [values] => lock_in(alloc, values.as_slice()),
        _ => Ok(None),
    }
}

/// The lock's row, whose ID is 1.
#[tactic(auto, unfolding(crate::specs::Database::lock_in))]
fn lock_in(alloc: Global, values: &[Value]) -> Result<Option<Lock>, NoMemory>
    ensures { IfOk result (λ lock. lock ≡ lock_in values.now) }
{
    let [Value::Int(id), Value::Bool(locked), granted, by] = values else {
        return Ok(None);
    };
    if *id != 1 {
        return Ok(None);
    }
    let Some(granted) = moment_in(granted) else {
        return Ok(None);
    };
    let Some(by) = text_in(alloc, by)? else {
        return Ok(None);
    };
    Ok(Some(Lock {
        locked: *locked,
        granted,
        by,
    }))
}
