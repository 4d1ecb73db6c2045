ghost use Rattle.std.specs.Prelude.{◌≡◌, ◌&&◌, IfOk};
ghost use Rattle.lq_decide.specs.Faults.{are_twins};
ghost use Rattle.lq_model.specs.Constraints as spec;
ghost use Rattle.lq_model.specs.Plan.{decide};
ghost use Rattle.lq_model.specs.Sound.{IsSound};
ghost use Rattle.lq_rows.specs.Stored.{Answers, with_shape};

use crate::ending::{nothing_there, reshape};
use crate::equal::{has_twins, lacks_one};
use crate::names::{are_reserved, index_taken, no_tests, unique_taken};
use lq_arm::{Tests, repeats, takes_lock_key};
use lq_base::{Dialect, Duplicate, Name, NoMemory, placed};
use lq_model::{By, Index, Unique};
use lq_parts::{Parts, RunFault};
use lq_rows::{Held, Shape};
use std::alloc::Global;

/// The table's shape with one more unique constraint.
fn with_unique(alloc: Global, held: &Held, unique: &Unique) -> Result<Shape, NoMemory>
    ensures { IfOk result
        (λ shape. with_shape shape held.now.now ≡ spec.with_unique unique.now held.now.now) }
{
    let mut shape = held.shape().duplicate(alloc)?;
    shape.uniques.push(unique.duplicate(alloc)?)?;
    Ok(shape)
}

/// ALTER TABLE .. ADD UNIQUE on a sound catalogue, on someone's behalf.
pub fn add_unique(
    parts: &mut Parts,
    alloc: Global,
    by: By,
    dialect: Dialect,
    table: &Name,
    unique: &Unique,
) -> Result<u64, RunFault>
    requires { IsSound dialect parts.old.now }
    ensures { Answers (decide (spec.add_unique by dialect table.now unique.now parts.old.now))
        parts.old parts.new result }
{
    let reserved = are_reserved(by, table, &unique.name);
    let Some(held) = parts.table(table) else {
        return Err(nothing_there(reserved));
    };
    let names = unique.columns.as_slice();
    let shared = placed(alloc, table, &unique.name)?;
    let shape = with_unique(alloc, held, unique)?;
    let missing = lacks_one(alloc, held, names)?;
    let twice = repeats(alloc, names)?;
    let twins = has_twins(alloc, held, names)?;
    let tests = Tests {
        reserved,
        missing,
        exists: unique_taken(parts, held, dialect, &unique.name, &shared)
            | (takes_lock_key(by, dialect, &shared) | twice),
        twins,
        ..no_tests()
    };
    reshape(parts, table, tests, shape)
}

/// The table's shape with one more index.
fn with_index(alloc: Global, held: &Held, index: &Index) -> Result<Shape, NoMemory>
    ensures { IfOk result
        (λ shape. with_shape shape held.now.now ≡ spec.with_index index.now held.now.now) }
{
    let mut shape = held.shape().duplicate(alloc)?;
    shape.indexes.push(index.duplicate(alloc)?)?;
    Ok(shape)
}

/// Whether two rows are equal where the index lets none be.
fn has_index_twins(alloc: Global, held: &Held, index: &Index) -> Result<bool, NoMemory>
    ensures { IfOk result
        (λ found. found ≡ (index.now.unique && are_twins held.now.now index.now.columns)) }
{
    if !index.unique {
        return Ok(false);
    }
    has_twins(alloc, held, index.columns.as_slice())
}

/// CREATE INDEX on a sound catalogue, on someone's behalf.
pub fn create_index(
    parts: &mut Parts,
    alloc: Global,
    by: By,
    dialect: Dialect,
    table: &Name,
    index: &Index,
) -> Result<u64, RunFault>
    requires { IsSound dialect parts.old.now }
    ensures { Answers (decide (spec.create_index by dialect table.now index.now parts.old.now))
        parts.old parts.new result }
{
    let reserved = are_reserved(by, table, &index.name);
    let Some(held) = parts.table(table) else {
        return Err(nothing_there(reserved));
    };
    let names = index.columns.as_slice();
    let shared = placed(alloc, table, &index.name)?;
    let shape = with_index(alloc, held, index)?;
    let missing = lacks_one(alloc, held, names)?;
    let twice = repeats(alloc, names)?;
    let twins = has_index_twins(alloc, held, index)?;
    let tests = Tests {
        reserved,
        missing,
        exists: index_taken(parts, held, dialect, &index.name, &shared)
            | (takes_lock_key(by, dialect, &shared) | twice),
        twins,
        ..no_tests()
    };
    reshape(parts, table, tests, shape)
}
