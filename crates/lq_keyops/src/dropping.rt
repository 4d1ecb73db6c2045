ghost use Rattle.std.specs.List.{list_any};
ghost use Rattle.std.specs.Prelude.{◌≡◌, IfOk, Some};
ghost use Rattle.lq_model.specs.Constraints as spec;
ghost use Rattle.lq_model.specs.Plan.{decide};
ghost use Rattle.lq_model.specs.Sound.{IsSound};
ghost use Rattle.lq_rows.specs.Stored.{Answers, with_shape};

use crate::ending::{nothing_there, reshape};
use crate::lists::{foreign_without, indexes_without, key_without, uniques_without};
use crate::names::{are_reserved, no_tests};
use crate::targets::loses_target;
use lq_arm::{Tests, is_constraint, is_foreign, is_index, is_key, is_unique};
use lq_base::{Dialect, Duplicate, Name, NoMemory};
use lq_model::{By, Column};
use lq_parts::{Parts, RunFault};
use lq_query::is_reserved;
use lq_rows::{Held, Shape};
use std::alloc::Global;

/// The table's shape without the foreign keys of the name.
fn without_foreign(alloc: Global, held: &Held, name: &Name) -> Result<Shape, NoMemory>
    ensures { IfOk result
        (λ shape. with_shape shape held.now.now ≡ spec.without_foreign name.now held.now.now) }
{
    let mut shape = held.shape().duplicate(alloc)?;
    shape.foreign = foreign_without(alloc, held.foreign_keys(), name)?;
    Ok(shape)
}

/// ALTER TABLE .. DROP FOREIGN KEY on a sound catalogue, on someone's behalf.
pub fn drop_foreign_key(
    parts: &mut Parts,
    alloc: Global,
    by: By,
    dialect: Dialect,
    table: &Name,
    name: &Name,
) -> Result<u64, RunFault>
    requires { IsSound dialect parts.old.now }
    ensures { Answers (decide (spec.drop_foreign_key by dialect table.now name.now parts.old.now))
        parts.old parts.new result }
{
    let reserved = are_reserved(by, table, name);
    let Some(held) = parts.table(table) else {
        return Err(nothing_there(reserved));
    };
    let tests = Tests {
        reserved,
        missing: !is_foreign(held, name),
        ..no_tests()
    };
    let shape = without_foreign(alloc, held, name)?;
    reshape(parts, table, tests, shape)
}

/// The table's shape without the unique constraints of the name.
fn without_unique(alloc: Global, held: &Held, name: &Name) -> Result<Shape, NoMemory>
    ensures { IfOk result
        (λ shape. with_shape shape held.now.now ≡ spec.without_unique name.now held.now.now) }
{
    let mut shape = held.shape().duplicate(alloc)?;
    shape.uniques = uniques_without(alloc, held.uniques(), name)?;
    Ok(shape)
}

/// ALTER TABLE .. DROP INDEX of a unique constraint on a sound catalogue, on someone's behalf.
#[tactic(auto, using(lq_rows::proofs::Continued::stays))]
pub fn drop_unique(
    parts: &mut Parts,
    alloc: Global,
    by: By,
    dialect: Dialect,
    table: &Name,
    name: &Name,
) -> Result<u64, RunFault>
    requires { IsSound dialect parts.old.now }
    ensures { Answers (decide (spec.drop_unique by dialect table.now name.now parts.old.now))
        parts.old parts.new result }
{
    parts.see_targets()?;
    drop_unique_tested(parts, alloc, by, dialect, table, name)
}

fn drop_unique_tested(
    parts: &mut Parts,
    alloc: Global,
    by: By,
    dialect: Dialect,
    table: &Name,
    name: &Name,
) -> Result<u64, RunFault>
    requires { IsSound dialect parts.old.now }
    ensures { Answers (decide (spec.drop_unique by dialect table.now name.now parts.old.now))
        parts.old parts.new result }
{
    let reserved = are_reserved(by, table, name);
    let Some(held) = parts.table(table) else {
        return Err(nothing_there(reserved));
    };
    let shape = without_unique(alloc, held, name)?;
    let tests = Tests {
        reserved,
        missing: !is_unique(held, name),
        depends: loses_target(parts, table, &shape),
        ..no_tests()
    };
    reshape(parts, table, tests, shape)
}

/// Whether a column takes the next number.
fn has_numbered(columns: &[Column]) -> bool
    ensures { result ≡ list_any (λ c. c.numbered) columns.now }
{
    columns.iter().any(|column| column.numbered)
}

/// The table's shape without its key.
fn without_key(alloc: Global, held: &Held) -> Result<Shape, NoMemory>
    ensures { IfOk result
        (λ shape. with_shape shape held.now.now ≡ spec.without_its_key held.now.now) }
{
    let mut shape = held.shape().duplicate(alloc)?;
    shape.key = None;
    Ok(shape)
}

/// ALTER TABLE .. DROP PRIMARY KEY on a sound catalogue, on someone's behalf.
#[tactic(auto, using(lq_rows::proofs::Continued::stays))]
pub fn drop_primary_key(
    parts: &mut Parts,
    alloc: Global,
    by: By,
    dialect: Dialect,
    table: &Name,
) -> Result<u64, RunFault>
    requires { IsSound dialect parts.old.now }
    ensures { Answers (decide (spec.drop_primary_key by dialect table.now parts.old.now)) parts.old
        parts.new result }
{
    parts.see_targets()?;
    drop_primary_key_tested(parts, alloc, by, dialect, table)
}

fn drop_primary_key_tested(
    parts: &mut Parts,
    alloc: Global,
    by: By,
    dialect: Dialect,
    table: &Name,
) -> Result<u64, RunFault>
    requires { IsSound dialect parts.old.now }
    ensures { Answers (decide (spec.drop_primary_key by dialect table.now parts.old.now)) parts.old
        parts.new result }
{
    let reserved = is_reserved(by, table);
    let Some(held) = parts.table(table) else {
        return Err(nothing_there(reserved));
    };
    let shape = without_key(alloc, held)?;
    let tests = Tests {
        reserved,
        missing: held.key().is_none(),
        depends: has_numbered(held.columns()) | loses_target(parts, table, &shape),
        ..no_tests()
    };
    reshape(parts, table, tests, shape)
}

/// The table's shape without the constraints of the name.
fn without_constraint(alloc: Global, held: &Held, name: &Name) -> Result<Shape, NoMemory>
    ensures { IfOk result
        (λ shape. with_shape shape held.now.now
        ≡ spec.without_constraint name.now held.now.now) }
{
    let mut shape = held.shape().duplicate(alloc)?;
    shape.key = key_without(alloc, held.key(), name)?;
    shape.uniques = uniques_without(alloc, held.uniques(), name)?;
    shape.foreign = foreign_without(alloc, held.foreign_keys(), name)?;
    Ok(shape)
}

/// ALTER TABLE .. DROP CONSTRAINT on a sound catalogue, on someone's behalf.
#[tactic(auto, using(lq_rows::proofs::Continued::stays))]
pub fn drop_constraint(
    parts: &mut Parts,
    alloc: Global,
    by: By,
    dialect: Dialect,
    table: &Name,
    name: &Name,
) -> Result<u64, RunFault>
    requires { IsSound dialect parts.old.now }
    ensures { Answers (decide (spec.drop_constraint by dialect table.now name.now parts.old.now))
        parts.old parts.new result }
{
    parts.see_targets()?;
    drop_constraint_tested(parts, alloc, by, dialect, table, name)
}

fn drop_constraint_tested(
    parts: &mut Parts,
    alloc: Global,
    by: By,
    dialect: Dialect,
    table: &Name,
    name: &Name,
) -> Result<u64, RunFault>
    requires { IsSound dialect parts.old.now }
    ensures { Answers (decide (spec.drop_constraint by dialect table.now name.now parts.old.now))
        parts.old parts.new result }
{
    let reserved = are_reserved(by, table, name);
    let Some(held) = parts.table(table) else {
        return Err(nothing_there(reserved));
    };
    let shape = without_constraint(alloc, held, name)?;
    let tests = Tests {
        reserved,
        missing: !is_constraint(held, name),
        depends: (is_key(held, name) & has_numbered(held.columns()))
            | loses_target(parts, table, &shape),
        ..no_tests()
    };
    reshape(parts, table, tests, shape)
}

/// The table's shape without the indexes of the name.
fn without_index(alloc: Global, held: &Held, name: &Name) -> Result<Shape, NoMemory>
    ensures { IfOk result
        (λ shape. with_shape shape held.now.now ≡ spec.without_index name.now held.now.now) }
{
    let mut shape = held.shape().duplicate(alloc)?;
    shape.indexes = indexes_without(alloc, held.indexes(), name)?;
    Ok(shape)
}

/// DROP INDEX of a table's index on a sound catalogue, on someone's behalf.
pub fn drop_index_of(
    parts: &mut Parts,
    alloc: Global,
    by: By,
    dialect: Dialect,
    name: &Name,
    table: &Name,
) -> Result<u64, RunFault>
    requires { IsSound dialect parts.old.now }
    ensures { Answers (decide (spec.drop_index by dialect name.now (Some table.now) parts.old.now))
        parts.old parts.new result }
{
    let reserved = are_reserved(by, table, name);
    let Some(held) = parts.table(table) else {
        return Err(nothing_there(reserved));
    };
    let shape = without_index(alloc, held, name)?;
    let tests = Tests {
        reserved,
        missing: !is_index(held, name),
        ..no_tests()
    };
    reshape(parts, table, tests, shape)
}
