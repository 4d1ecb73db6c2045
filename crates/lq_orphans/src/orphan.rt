ghost use Rattle.std.specs.List.{list_any};
ghost use Rattle.std.specs.Prelude.{◌≡◌, IfOk};
ghost use Rattle.lq_model.specs.Catalogue.{the_table};
ghost use Rattle.lq_model.specs.Plan as spec;
ghost use Rattle.lq_parts.specs.Steps.{tables_of};
ghost use Rattle.lq_rows.specs.Stored.{ShowsRows};

use lq_base::{Name, NoMemory};
use lq_chain::Chain;
use lq_model::{Column, ForeignKey};
use lq_parts::Parts;
use lq_rows::{Held, Row, Values, lacks_one, see};
use std::alloc::Global;
use std::collections::BTreeSet;

/// The values of the rows that a foreign key aims at, in its targets.
fn parents(alloc: Global, parts: &Parts, key: &ForeignKey) -> Result<BTreeSet<Values>, NoMemory>
    ensures { IfOk result
        (λ set. ShowsRows (the_table parts.now.now key.now.table).columns key.now.targets
        (the_table parts.now.now key.now.table).rows set) }
{
    match parts.table(&key.table) {
        None => Ok(BTreeSet::new(alloc)),
        Some(held) => see(alloc, held.columns(), key.targets.as_slice(), held.rows()),
    }
}

/// Whether one of the rows has no parent by a foreign key: by a set of the parents' values, in
/// O(n log n). Without rows no set is made, since many tables may aim at one large table.
fn is_orphan(
    alloc: Global,
    parts: &Parts,
    columns: &[Column],
    rows: &Chain<Row>,
    key: &ForeignKey,
) -> Result<bool, NoMemory>
    ensures { IfOk result
        (λ found. found ≡ list_any
        (spec.lacks_parent parts.now.now columns.now key.now) rows.now.now) }
{
    if rows.is_empty() {
        return Ok(false);
    }
    let set = parents(alloc, parts, key)?;
    lacks_one(alloc, columns, key.columns.as_slice(), rows, &set)
}

/// Whether a row of a table has no parent by one of these foreign keys.
fn has_orphan(
    alloc: Global,
    parts: &Parts,
    columns: &[Column],
    rows: &Chain<Row>,
    keys: &[ForeignKey],
) -> Result<bool, NoMemory>
    ensures { IfOk result
        (λ found. found ≡ list_any (λ f. list_any
        (spec.lacks_parent parts.now.now columns.now f) rows.now.now) keys.now) }
{
    for key in keys {
        if is_orphan(alloc, parts, columns, rows, key)? {
            return Ok(true);
        }
    }
    Ok(false)
}

fn has_orphan_in(alloc: Global, parts: &Parts, held: &Held) -> Result<bool, NoMemory>
    ensures { IfOk result (λ found. found ≡ spec.has_orphan parts.now.now held.now.now) }
{
    has_orphan(
        alloc,
        parts,
        held.columns(),
        held.rows(),
        held.foreign_keys(),
    )
}

/// Whether a row of one of the tables has no parent.
pub fn has_orphans(alloc: Global, parts: &Parts, entries: &[(Name, Held)]) -> Result<bool, NoMemory>
    ensures { IfOk result
        (λ found. found ≡ list_any (λ e. spec.has_orphan parts.now.now e.1)
        (tables_of entries.now)) }
{
    for entry in entries {
        if has_orphan_in(alloc, parts, &entry.1)? {
            return Ok(true);
        }
    }
    Ok(false)
}
