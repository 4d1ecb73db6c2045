ghost use Rattle.std.specs.List.{list_any};
ghost use Rattle.std.specs.Option.{option_copied};
ghost use Rattle.std.specs.Prelude.{◌≡◌, IfOk, false, map};
ghost use Rattle.lq_decide.specs.Faults.{meets, names_set, set_child};
ghost use Rattle.lq_model.specs.Catalogue.{the_table, key_list};
ghost use Rattle.lq_model.specs.Plan.{is_loose, lacks_parent};
ghost use Rattle.lq_parts.specs.Steps.{tables_of};
ghost use Rattle.lq_rows.specs.Stored.{ShowsRows};
ghost use Rattle.lq_rowops.specs.InsertTests.{aims, loses, sets_target};

use crate::setting::meets;
use lq_base::{Literal, Name, NoMemory};
use lq_chain::Chain;
use lq_model::{Column, ForeignKey, Key, Unique};
use lq_parts::Parts;
use lq_rows::{Held, Row, Values, lacks_one, see};
use std::alloc::Global;
use std::collections::BTreeSet;

/// The values of the rows that a foreign key aims at, in its targets.
fn targets(alloc: Global, parts: &Parts, key: &ForeignKey) -> Result<BTreeSet<Values>, NoMemory>
    ensures { IfOk result (λ set.
        ShowsRows (the_table parts.now.now key.now.table).columns key.now.targets
        (the_table parts.now.now key.now.table).rows set) }
{
    match parts.table(&key.table) {
        None => Ok(BTreeSet::new(alloc)),
        Some(held) => see(alloc, held.columns(), key.targets.as_slice(), held.rows()),
    }
}

/// Whether one of the rows has no parent by a foreign key: by a set of the parents' values, in
/// O(n log n).
pub fn has_orphan(
    alloc: Global,
    parts: &Parts,
    columns: &[Column],
    rows: &Chain<Row>,
    key: &ForeignKey,
) -> Result<bool, NoMemory>
    ensures { IfOk result
        (λ found. found
        ≡ list_any (lacks_parent parts.now.now columns.now key.now) rows.now.now) }
{
    let targets = targets(alloc, parts, key)?;
    lacks_one(alloc, columns, key.columns.as_slice(), rows, &targets)
}

/// Whether a foreign key aims at a column of the table that is set.
pub fn aims(table: &Name, sets: &[(Name, Literal)], key: &ForeignKey) -> bool
    ensures { result ≡ aims table.now sets.now key.now }
{
    *table == key.table && meets(sets, key.targets.as_slice())
}

/// Whether one of the rows has lost its parent by a foreign key that aims at a set column.
fn loses(
    alloc: Global,
    parts: &Parts,
    table: &Name,
    sets: &[(Name, Literal)],
    held: &Held,
    key: &ForeignKey,
) -> Result<bool, NoMemory>
    ensures { IfOk result (λ found.
        found
        ≡ loses table.now sets.now parts.now.now held.now.now.columns held.now.now.rows key.now) }
{
    if !aims(table, sets, key) {
        return Ok(false);
    }
    has_orphan(alloc, parts, held.columns(), held.rows(), key)
}

/// Whether a row of a table has lost its parent by one of its foreign keys that aims at a set column.
pub fn loses_one(
    alloc: Global,
    parts: &Parts,
    table: &Name,
    sets: &[(Name, Literal)],
    held: &Held,
    keys: &[ForeignKey],
) -> Result<bool, NoMemory>
    ensures { IfOk result (λ found.
        found
        ≡ list_any (loses table.now sets.now parts.now.now held.now.now.columns held.now.now.rows)
        keys.now) }
{
    for key in keys {
        if loses(alloc, parts, table, sets, held, key)? {
            return Ok(true);
        }
    }
    Ok(false)
}

/// Whether a row of another table has lost its parent.
fn child_lost(
    alloc: Global,
    parts: &Parts,
    table: &Name,
    sets: &[(Name, Literal)],
    name: &Name,
    held: &Held,
) -> Result<bool, NoMemory>
    ensures { IfOk result (λ found.
        found ≡ set_child table.now sets.now parts.now.now parts.now.now
        (name.now, held.now.now)) }
{
    if *name == *table {
        return Ok(false);
    }
    loses_one(alloc, parts, table, sets, held, held.foreign_keys())
}

/// Whether a row of one of these tables, of another than the one that is set, has lost its parent.
fn one_lost(
    alloc: Global,
    parts: &Parts,
    table: &Name,
    sets: &[(Name, Literal)],
    entries: &[(Name, Held)],
) -> Result<bool, NoMemory>
    ensures { IfOk result (λ found.
        found
        ≡ list_any (set_child table.now sets.now parts.now.now parts.now.now)
        (tables_of entries.now)) }
{
    for entry in entries {
        if child_lost(alloc, parts, table, sets, &entry.0, &entry.1)? {
            return Ok(true);
        }
    }
    Ok(false)
}

/// Whether a column that is set stands in the key.
fn sets_key(sets: &[(Name, Literal)], key: Option<&Key>) -> bool
    ensures { result
        ≡ list_any (meets (names_set sets.now))
        (map (λ k. k.columns) (key_list (option_copied key.entry))) }
{
    match key {
        None => false,
        Some(key) => meets(sets, key.columns.as_slice()),
    }
}

/// Whether a column that is set stands in one of the unique constraints.
fn sets_unique(sets: &[(Name, Literal)], uniques: &[Unique]) -> bool
    ensures { result ≡ list_any (meets (names_set sets.now)) (map (λ u. u.columns) uniques.now) }
{
    for unique in uniques {
        if meets(sets, unique.columns.as_slice()) {
            return true;
        }
    }
    false
}

/// Whether a column that is set stands in what a foreign key may target.
#[tactic(auto, using(crate::proofs::TargetLemmas::any_two))]
fn sets_target_of(sets: &[(Name, Literal)], held: &Held) -> bool
    ensures { result ≡ sets_target sets.now held.now.now }
{
    sets_key(sets, held.key()) || sets_unique(sets, held.uniques())
}

/// The same of the table of the name; nothing may be targeted where there is none.
fn sets_target(parts: &Parts, table: &Name, sets: &[(Name, Literal)]) -> bool
    ensures { result ≡ sets_target sets.now (the_table parts.now.now table.now) }
{
    match parts.table(table) {
        Some(held) => sets_target_of(sets, held),
        None => false,
    }
}

/// Whether a row of another table has lost its parent. No table is looked at where nothing is set
/// that a foreign key may target.
pub fn children_lost(
    alloc: Global,
    parts: &Parts,
    table: &Name,
    sets: &[(Name, Literal)],
) -> Result<bool, NoMemory>
    requires { is_loose parts.now.now ≡ false }
    ensures { IfOk result (λ found.
        found
        ≡ list_any (set_child table.now sets.now parts.now.now parts.now.now)
        parts.now.now.tables) }
{
    if !sets_target(parts, table, sets) {
        return Ok(false);
    }
    one_lost(alloc, parts, table, sets, parts.tables())
}
