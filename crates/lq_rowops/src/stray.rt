ghost use Rattle.std.specs.List.{list_any};
ghost use Rattle.std.specs.Prelude.{◌≡◌, IfOk};
ghost use Rattle.lq_model.specs.Catalogue.{the_table};
ghost use Rattle.lq_model.specs.Plan.{lacks_parent};
ghost use Rattle.lq_rowops.specs.InsertTests.{is_some_such, strays};

use crate::orphan::aims;
use crate::row::copied;
use crate::setting::meets;
use lq_base::{Literal, Name, NoMemory, Value};
use lq_model::{Column, ForeignKey};
use lq_parts::Parts;
use lq_rows::{Row, Values, has_null, picked};
use std::alloc::Global;

/// Whether a row has no parent by a foreign key.
#[tactic(auto, using(crate::proofs::OrphanLemmas::lacks_is))]
fn lacks_parent(
    parts: &mut Parts,
    alloc: Global,
    columns: &[Column],
    row: &[Value],
    key: &ForeignKey,
) -> Result<bool, NoMemory>
    ensures found { IfOk result
        (λ found. found ≡ lacks_parent parts.old.now columns.now key.now row.now) }
    ensures same { parts.new ≡ parts.old }
{
    let own = picked(alloc, columns, key.columns.as_slice(), row)?;
    if has_null(own.as_slice()) {
        return Ok(false);
    }
    let found = parts.has_row(alloc, &key.table, key.targets.as_slice(), &Values::new(own))?;
    Ok(!found)
}

fn is_stray(
    parts: &mut Parts,
    alloc: Global,
    columns: &[Column],
    new: &Option<Row>,
    key: &ForeignKey,
) -> Result<bool, NoMemory>
    ensures found { IfOk result
        (λ found. found
        ≡ is_some_such (lacks_parent parts.old.now columns.now key.now) new.now) }
    ensures same { parts.new ≡ parts.old }
{
    match new {
        None => Ok(false),
        Some(row) => lacks_parent(parts, alloc, columns, row.as_slice(), key),
    }
}

fn stray_in(
    parts: &mut Parts,
    alloc: Global,
    columns: &[Column],
    by: &[Option<Row>],
    key: &ForeignKey,
) -> Result<bool, NoMemory>
    ensures found { IfOk result (λ found.
        found ≡ list_any (is_some_such (lacks_parent parts.old.now columns.now key.now)) by.now) }
    ensures same { parts.new ≡ parts.old }
{
    for new in by {
        if is_stray(parts, alloc, columns, new, key)? {
            return Ok(true);
        }
    }
    Ok(false)
}

fn strays(
    parts: &mut Parts,
    alloc: Global,
    table: &Name,
    sets: &[(Name, Literal)],
    columns: &[Column],
    by: &[Option<Row>],
    key: &ForeignKey,
) -> Result<bool, NoMemory>
    ensures found { IfOk result
        (λ found. found ≡ strays table.now sets.now by.now parts.old.now columns.now key.now) }
    ensures same { parts.new ≡ parts.old }
{
    if aims(table, sets, key) || !meets(sets, key.columns.as_slice()) {
        return Ok(false);
    }
    stray_in(parts, alloc, columns, by, key)
}

fn strays_one(
    parts: &mut Parts,
    alloc: Global,
    table: &Name,
    sets: &[(Name, Literal)],
    columns: &[Column],
    by: &[Option<Row>],
    keys: &[ForeignKey],
) -> Result<bool, NoMemory>
    ensures found { IfOk result (λ found.
        found ≡ list_any (strays table.now sets.now by.now parts.old.now columns.now) keys.now) }
    ensures same { parts.new ≡ parts.old }
{
    for key in keys {
        if strays(parts, alloc, table, sets, columns, by, key)? {
            return Ok(true);
        }
    }
    Ok(false)
}

/// Whether a new row has no parent by a foreign key of its table of which a column is set, and that
/// does not aim at a set column.
pub fn is_stray_by(
    parts: &mut Parts,
    alloc: Global,
    table: &Name,
    sets: &[(Name, Literal)],
    by: &[Option<Row>],
) -> Result<bool, NoMemory>
    ensures found { IfOk result (λ found.
        found
        ≡ list_any
        (strays table.now sets.now by.now parts.old.now
        (the_table parts.old.now table.now).columns)
        (the_table parts.old.now table.now).foreign) }
    ensures same { parts.new ≡ parts.old }
{
    let Some(held) = parts.table(table) else {
        return Ok(false);
    };
    if held.foreign_keys().is_empty() {
        return Ok(false);
    }
    let columns = copied(alloc, held.columns())?;
    let keys = copied(alloc, held.foreign_keys())?;
    strays_one(
        parts,
        alloc,
        table,
        sets,
        columns.as_slice(),
        by,
        keys.as_slice(),
    )
}
