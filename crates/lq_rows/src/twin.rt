ghost use Rattle.std.specs.List.{filter, list_any};
ghost use Rattle.std.specs.Prelude.{◌≡◌, IfOk, map};
ghost use Rattle.lq_model.specs.Catalogue.{key_list};
ghost use Rattle.lq_model.specs.Plan.{is_twin_in};
ghost use Rattle.lq_rows.specs.Stored.{AllShow};

use crate::held::{Row, Seen};
use crate::pick::picked;
use crate::seen::asked;
use crate::values::Values;
use lq_base::{Name, NoMemory, Value};
use lq_chain::Chain;
use lq_model::{Column, Index, Key, Unique};
use std::alloc::Global;

/// Whether a row is equal to this one in these columns.
#[tactic(auto, using(crate::proofs::SeenLemmas::twin_is))]
fn twin_in(
    alloc: Global,
    seen: &mut Vec<Seen>,
    columns: &[Column],
    rows: &Chain<Row>,
    names: &[Name],
    row: &[Value],
) -> Result<bool, NoMemory>
    requires { AllShow columns.now rows.now.now seen.old.items }
    ensures found { IfOk result
        (λ found. found ≡ is_twin_in columns.now rows.now.now row.now names.now) }
    ensures kept { AllShow columns.now rows.now.now seen.new.items }
{
    let values = Values::new(picked(alloc, columns, names, row)?);
    let found = asked(alloc, seen, columns, rows, names, &values)?;
    Ok(found)
}

pub fn key_twin(
    alloc: Global,
    seen: &mut Vec<Seen>,
    columns: &[Column],
    rows: &Chain<Row>,
    key: &Option<Key>,
    row: &[Value],
) -> Result<bool, NoMemory>
    requires { AllShow columns.now rows.now.now seen.old.items }
    ensures found { IfOk result (λ found.
        found
        ≡ list_any (is_twin_in columns.now rows.now.now row.now)
        (map (λ k. k.columns) (key_list key.now))) }
    ensures kept { AllShow columns.now rows.now.now seen.new.items }
{
    match key {
        None => Ok(false),
        Some(key) => twin_in(alloc, seen, columns, rows, key.columns.as_slice(), row),
    }
}

pub fn unique_twin(
    alloc: Global,
    seen: &mut Vec<Seen>,
    columns: &[Column],
    rows: &Chain<Row>,
    uniques: &[Unique],
    row: &[Value],
) -> Result<bool, NoMemory>
    requires { AllShow columns.now rows.now.now seen.old.items }
    ensures found { IfOk result (λ found.
        found
        ≡ list_any (is_twin_in columns.now rows.now.now row.now)
        (map (λ u. u.columns) uniques.now)) }
    ensures kept { AllShow columns.now rows.now.now seen.new.items }
{
    for unique in uniques {
        if twin_in(alloc, seen, columns, rows, unique.columns.as_slice(), row)? {
            return Ok(true);
        }
    }
    Ok(false)
}

pub fn index_twin(
    alloc: Global,
    seen: &mut Vec<Seen>,
    columns: &[Column],
    rows: &Chain<Row>,
    indexes: &[Index],
    row: &[Value],
) -> Result<bool, NoMemory>
    requires { AllShow columns.now rows.now.now seen.old.items }
    ensures found { IfOk result (λ found.
        found
        ≡ list_any (is_twin_in columns.now rows.now.now row.now)
        (map (λ i. i.columns) (filter (λ i. i.unique) indexes.now))) }
    ensures kept { AllShow columns.now rows.now.now seen.new.items }
{
    for index in indexes {
        if !index.unique {
            continue;
        }
        if twin_in(alloc, seen, columns, rows, index.columns.as_slice(), row)? {
            return Ok(true);
        }
    }
    Ok(false)
}
