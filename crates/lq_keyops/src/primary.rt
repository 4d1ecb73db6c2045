ghost use Rattle.std.specs.Prelude.{◌≡◌, IfOk, Some, map};
ghost use Rattle.lq_model.specs.Constraints as spec;
ghost use Rattle.lq_model.specs.Tables.{key_column};
ghost use Rattle.lq_model.specs.Catalogue as spaces;
ghost use Rattle.lq_model.specs.Plan.{decide};
ghost use Rattle.lq_model.specs.Sound.{IsSound};
ghost use Rattle.lq_rows.specs.Stored.{Answers, with_shape};

use crate::ending::{nothing_there, reshape};
use crate::equal::{has_null_in, has_twins, lacks_one};
use crate::names::{are_reserved, key_taken, no_tests};
use lq_arm::{Tests, repeats, takes_lock_key};
use lq_base::{Dialect, Duplicate, Items, Name, NoMemory, placed};
use lq_model::{By, Column, Key};
use lq_parts::{Parts, RunFault};
use lq_rows::{Held, Shape};
use std::alloc::Global;

fn is_in(name: &Name, names: &[Name]) -> bool
    ensures { result ≡ spaces.is_in name.now names.now }
{
    names.iter().any(|other| *name == *other)
}

/// The column, which is NOT NULL if it is the key's.
fn keyed(alloc: Global, column: &Column, key: &Key) -> Result<Column, NoMemory>
    ensures { IfOk result (λ made. made ≡ key_column (Some key.now) column.now) }
{
    let mut made = column.duplicate(alloc)?;
    if is_in(&column.name, key.columns.as_slice()) {
        made.nullable = false;
    }
    Ok(made)
}

fn all_keyed(alloc: Global, columns: &[Column], key: &Key) -> Result<Items<Column>, NoMemory>
    ensures { IfOk result (λ made. made ≡ map (key_column (Some key.now)) columns.now) }
{
    let mut made = Items::new(alloc);
    for column in columns {
        made.push(keyed(alloc, column, key)?)?;
    }
    Ok(made)
}

/// The table's shape with this key.
fn with_key(alloc: Global, held: &Held, key: &Key) -> Result<Shape, NoMemory>
    ensures { IfOk result
        (λ shape. with_shape shape held.now.now ≡ spec.with_key key.now held.now.now) }
{
    let mut shape = held.shape().duplicate(alloc)?;
    shape.columns = all_keyed(alloc, held.columns(), key)?;
    shape.key = Some(key.duplicate(alloc)?);
    Ok(shape)
}

/// ALTER TABLE .. ADD PRIMARY KEY on a sound catalogue, on someone's behalf.
pub fn add_primary_key(
    parts: &mut Parts,
    alloc: Global,
    by: By,
    dialect: Dialect,
    table: &Name,
    key: &Key,
) -> Result<u64, RunFault>
    requires { IsSound dialect parts.old.now }
    ensures { Answers (decide (spec.add_primary_key by dialect table.now key.now parts.old.now))
        parts.old parts.new result }
{
    let reserved = are_reserved(by, table, &key.name);
    let Some(held) = parts.table(table) else {
        return Err(nothing_there(reserved));
    };
    let names = key.columns.as_slice();
    let shared = placed(alloc, table, &key.name)?;
    let shape = with_key(alloc, held, key)?;
    let missing = lacks_one(alloc, held, names)?;
    let twice = repeats(alloc, names)?;
    let twins = has_twins(alloc, held, names)?;
    let tests = Tests {
        reserved,
        missing,
        exists: held.key().is_some()
            | (key_taken(parts, held, dialect, &key.name, &shared)
                | (takes_lock_key(by, dialect, &shared) | twice)),
        nulls: has_null_in(held, names),
        twins,
        ..no_tests()
    };
    reshape(parts, table, tests, shape)
}
