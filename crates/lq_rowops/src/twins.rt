ghost use Rattle.std.specs.List.{filter, list_any};
ghost use Rattle.std.specs.Option.{option_copied};
ghost use Rattle.std.specs.Prelude.{◌≡◌, ◌&&◌, IfOk, map};
ghost use Rattle.lq_decide.specs.Faults.{are_twins};
ghost use Rattle.lq_model.specs.Plan.{unique_lists};
ghost use Rattle.lq_model.specs.Catalogue.{key_list};
ghost use Rattle.lq_rowops.specs.InsertTests.{set_twins};

use crate::setting::meets;
use lq_base::{Literal, Name, NoMemory};
use lq_model::{Index, Key, Unique};
use lq_rows::{Held, are_twins};
use std::alloc::Global;

/// Whether two rows are equal in these columns, of which one is set.
fn twins_in(
    alloc: Global,
    sets: &[(Name, Literal)],
    held: &Held,
    names: &[Name],
) -> Result<bool, NoMemory>
    ensures { IfOk result (λ found. found ≡ set_twins sets.now held.now.now names.now) }
{
    if !meets(sets, names) {
        return Ok(false);
    }
    are_twins(alloc, held.columns(), names, held.rows())
}

fn key_twins(
    alloc: Global,
    sets: &[(Name, Literal)],
    held: &Held,
    key: Option<&Key>,
) -> Result<bool, NoMemory>
    ensures { IfOk result (λ found.
        found
        ≡ list_any (set_twins sets.now held.now.now)
        (map (λ k. k.columns) (key_list (option_copied key.entry)))) }
{
    match key {
        None => Ok(false),
        Some(key) => twins_in(alloc, sets, held, key.columns.as_slice()),
    }
}

fn unique_twins(
    alloc: Global,
    sets: &[(Name, Literal)],
    held: &Held,
    uniques: &[Unique],
) -> Result<bool, NoMemory>
    ensures { IfOk result (λ found.
        found ≡ list_any (set_twins sets.now held.now.now) (map (λ u. u.columns) uniques.now)) }
{
    for unique in uniques {
        if twins_in(alloc, sets, held, unique.columns.as_slice())? {
            return Ok(true);
        }
    }
    Ok(false)
}

fn index_twins(
    alloc: Global,
    sets: &[(Name, Literal)],
    held: &Held,
    indexes: &[Index],
) -> Result<bool, NoMemory>
    ensures { IfOk result (λ found.
        found
        ≡ list_any (set_twins sets.now held.now.now)
        (map (λ i. i.columns) (filter (λ i. i.unique) indexes.now))) }
{
    for index in indexes {
        if !index.unique {
            continue;
        }
        if twins_in(alloc, sets, held, index.columns.as_slice())? {
            return Ok(true);
        }
    }
    Ok(false)
}

/// Whether two rows are equal in a key, a unique constraint or a unique index of which a column is set.
#[tactic(auto, using(crate::proofs::UpdateLemmas::any_three))]
pub fn has_twins(alloc: Global, sets: &[(Name, Literal)], held: &Held) -> Result<bool, NoMemory>
    ensures { IfOk result
        (λ found. found
        ≡ list_any (set_twins sets.now held.now.now) (unique_lists held.now.now)) }
{
    if key_twins(alloc, sets, held, held.key())? {
        return Ok(true);
    }
    if unique_twins(alloc, sets, held, held.uniques())? {
        return Ok(true);
    }
    index_twins(alloc, sets, held, held.indexes())
}
