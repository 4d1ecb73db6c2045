ghost use Rattle.std.specs.BTreeSet.{contains};
ghost use Rattle.std.specs.List.{list_any};
ghost use Rattle.std.specs.Prelude.{◌≡◌, ◌&&◌, IfOk, map, not};
ghost use Rattle.lq_model.specs.Constraints as spec;
ghost use Rattle.lq_model.specs.Kinds as kinds;
ghost use Rattle.lq_model.specs.Plan.{decide};
ghost use Rattle.lq_model.specs.Catalogue.{is_null, picked};
ghost use Rattle.lq_model.specs.Sound.{IsSound};
ghost use Rattle.lq_rows.specs.Stored.{Answers, values_cmp, ShowsRows, with_shape};
ghost use Rattle.lq_keyops.specs.Targets.{lacks_parent_in};

use crate::ending::{nothing_there, reshape};
use crate::equal::{lacks_one, values_of};
use crate::names::{are_reserved, foreign_taken, learn_foreign, no_tests};
use crate::targets::is_target;
use lq_arm::{Tests, repeats};
use lq_base::{Dialect, Duplicate, Kind, Name, NoMemory, Value};
use lq_chain::Chain;
use lq_model::{By, Column, ForeignKey, are_equal};
use lq_parts::{Parts, RunFault};
use lq_query::is_reserved;
use lq_rows::{Held, Row, Shape, Values, has_null, picked};
use std::alloc::Global;
use std::collections::BTreeSet;

/// The kind of the column of the name.
fn kind_of(columns: &[Column], name: &Name) -> Option<Kind>
    ensures { result ≡ kinds.kind_of name.now columns.now }
{
    for column in columns {
        if *name == column.name {
            return Some(column.kind);
        }
    }
    None
}

fn same_kind(a: Option<Kind>, b: Option<Kind>) -> bool
    ensures { result ≡ kinds.same_kind a b }
{
    let Some(a) = a else {
        return false;
    };
    let Some(b) = b else {
        return false;
    };
    are_equal(a, b)
}

/// Whether columns and their targets are as many, and of the same kinds.
fn same_kinds(columns: &[Column], names: &[Name], others: &[Column], targets: &[Name]) -> bool
    ensures { result
        ≡ kinds.same_kinds (map (λ n. kinds.kind_of n columns.now) names.now)
        (map (λ n. kinds.kind_of n others.now) targets.now) }
{
    let mut left = targets;
    for name in names {
        let Some((target, after)) = left.split_first() else {
            return false;
        };
        if !same_kind(kind_of(columns, name), kind_of(others, target)) {
            return false;
        }
        left = after;
    }
    left.is_empty()
}

/// Whether a row whose values in some columns have no null is not among the known ones.
fn is_unknown(
    alloc: Global,
    known: &BTreeSet<Values>,
    columns: &[Column],
    names: &[Name],
    row: &[Value],
) -> Result<bool, NoMemory>
    ensures { IfOk result (λ is.
        is
        ≡
        (not (list_any is_null (picked columns.now names.now row.now))
        && not (contains values_cmp known.now (picked columns.now names.now row.now)))) }
{
    let own = picked(alloc, columns, names, row)?;
    if has_null(own.as_slice()) {
        return Ok(false);
    }
    Ok(!known.contains(&Values::new(own)))
}

/// Whether there is such a row.
fn lacks_one_parent(
    alloc: Global,
    known: &BTreeSet<Values>,
    columns: &[Column],
    names: &[Name],
    rows: &Chain<Row>,
) -> Result<bool, NoMemory>
    ensures { IfOk result (λ found.
        found
        ≡ list_any (λ r.
        not (list_any is_null (picked columns.now names.now r))
        && not (contains values_cmp known.now (picked columns.now names.now r))) rows.now.now) }
{
    for row in rows.iter() {
        if is_unknown(alloc, known, columns, names, row.as_slice())? {
            return Ok(true);
        }
    }
    Ok(false)
}

/// Whether a row of the table has no parent by a foreign key: in O(n log n) of both tables.
fn has_orphan(alloc: Global, held: &Held, key: &ForeignKey, target: &Held) -> Result<bool, NoMemory>
    ensures { IfOk result (λ found.
        found
        ≡ list_any (lacks_parent_in target.now.now held.now.now.columns key.now)
        held.now.now.rows) }
{
    let known = values_of(
        alloc,
        target.columns(),
        key.targets.as_slice(),
        target.rows(),
    )?;
    let found = lacks_one_parent(
        alloc,
        &known,
        held.columns(),
        key.columns.as_slice(),
        held.rows(),
    )?;
    Ok(found)
}

/// The table's shape with one more foreign key.
fn with_foreign(alloc: Global, held: &Held, foreign: &ForeignKey) -> Result<Shape, NoMemory>
    ensures { IfOk result
        (λ shape. with_shape shape held.now.now ≡ spec.with_foreign foreign.now held.now.now) }
{
    let mut shape = held.shape().duplicate(alloc)?;
    shape.foreign.push(foreign.duplicate(alloc)?)?;
    Ok(shape)
}

/// ALTER TABLE .. ADD FOREIGN KEY on a sound catalogue, on someone's behalf.
#[tactic(auto, using(lq_rows::proofs::Continued::stays))]
pub fn add_foreign_key(
    parts: &mut Parts,
    alloc: Global,
    by: By,
    dialect: Dialect,
    table: &Name,
    foreign: &ForeignKey,
) -> Result<u64, RunFault>
    requires { IsSound dialect parts.old.now }
    ensures { Answers (decide (spec.add_foreign_key by dialect table.now foreign.now parts.old.now))
        parts.old parts.new result }
{
    learn_foreign(parts, dialect, &foreign.name)?;
    add_foreign_key_tested(parts, alloc, by, dialect, table, foreign)
}

fn add_foreign_key_tested(
    parts: &mut Parts,
    alloc: Global,
    by: By,
    dialect: Dialect,
    table: &Name,
    foreign: &ForeignKey,
) -> Result<u64, RunFault>
    requires { IsSound dialect parts.old.now }
    ensures { Answers (decide (spec.add_foreign_key by dialect table.now foreign.now parts.old.now))
        parts.old parts.new result }
{
    let reserved = are_reserved(by, table, &foreign.name) | is_reserved(by, &foreign.table);
    let absent = nothing_there(reserved);
    let Some(held) = parts.table(table) else {
        return Err(absent);
    };
    let Some(target) = parts.table(&foreign.table) else {
        return Err(absent);
    };
    let columns = foreign.columns.as_slice();
    let targets = foreign.targets.as_slice();
    let shape = with_foreign(alloc, held, foreign)?;
    let missing = lacks_one(alloc, held, columns)?;
    let missing_there = lacks_one(alloc, target, targets)?;
    let twice = repeats(alloc, columns)?;
    let twice_there = repeats(alloc, targets)?;
    let orphans = has_orphan(alloc, held, foreign, target)?;
    let tests = Tests {
        reserved,
        missing: missing | missing_there,
        exists: foreign_taken(parts, held, dialect, &foreign.name) | (twice | twice_there),
        depends: !is_target(targets, target.key(), target.uniques()),
        wrong: !same_kinds(held.columns(), columns, target.columns(), targets),
        orphans,
        ..no_tests()
    };
    reshape(parts, table, tests, shape)
}
