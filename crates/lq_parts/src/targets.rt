//! How many foreign keys target each table.
ghost use Rattle.std.specs.BTreeMap.{get};
ghost use Rattle.std.specs.List.{count_by};
ghost use Rattle.std.specs.Map.{count_at};
ghost use Rattle.std.specs.Prelude.{◌≡◌, ◌∷◌, ◌++◌, List, [], IfOk, OnOk, map};
ghost use Rattle.lq_base.specs.Name.{is_named, name_cmp};
ghost use Rattle.lq_base.specs.declared.name.Name.{Name};
ghost use Rattle.lq_parts.specs.Steps.{tables_of};
ghost use Rattle.lq_parts.specs.Taken.{AreCounts, CountsLess, CountsMore, HasCounts, names_in, targets_inside};

use lq_base::{Duplicate, Name, NoMemory};
use lq_model::ForeignKey;
use lq_rows::{Held, Shape};
use std::alloc::Global;
use std::collections::BTreeMap;

/// How often the name is counted.
pub fn count_of(counts: &BTreeMap<Name, u64>, name: &Name) -> u64
    ensures { result ≡ count_at (get name_cmp counts.now) name.now }
{
    match counts.get(name) {
        Some(count) => *count,
        None => 0,
    }
}

#[tactic(auto, using(crate::proofs::TargetLemmas::counted))]
fn count_one(alloc: Global, counts: &mut BTreeMap<Name, u64>, name: &Name) -> Result<(), NoMemory>
    ensures { OnOk result (CountsMore (name.now ∷ []) counts.old counts.new) }
{
    let Some(more) = count_of(counts, name).checked_add(1) else {
        return Err(NoMemory);
    };
    counts.insert(name.duplicate(alloc)?, more)?;
    Ok(())
}

#[tactic(auto, using(crate::proofs::TargetLemmas::discounted))]
fn discount_one(
    alloc: Global,
    counts: &mut BTreeMap<Name, u64>,
    name: &Name,
) -> Result<(), NoMemory>
    ensures { OnOk result (CountsLess (name.now ∷ []) counts.old counts.new) }
{
    let less = count_of(counts, name).saturating_sub(1);
    counts.insert(name.duplicate(alloc)?, less)?;
    Ok(())
}

#[tactic(auto, using(crate::proofs::TargetLemmas::counting_none, crate::proofs::TargetLemmas::counting_more, crate::proofs::TargetLemmas::counting_all))]
fn count_keys(
    alloc: Global,
    counts: &mut BTreeMap<Name, u64>,
    keys: &[ForeignKey],
) -> Result<(), NoMemory>
    ensures { OnOk result (CountsMore (map (λ f. f.table) keys.now) counts.old counts.new) }
{
    for key in keys {
        count_one(alloc, counts, &key.table)?;
    }
    Ok(())
}

#[tactic(auto, using(crate::proofs::TargetLemmas::discounting_none, crate::proofs::TargetLemmas::discounting_more, crate::proofs::TargetLemmas::discounting_all))]
fn discount_keys(
    alloc: Global,
    counts: &mut BTreeMap<Name, u64>,
    keys: &[ForeignKey],
) -> Result<(), NoMemory>
    ensures { OnOk result (CountsLess (map (λ f. f.table) keys.now) counts.old counts.new) }
{
    for key in keys {
        discount_one(alloc, counts, &key.table)?;
    }
    Ok(())
}

#[tactic(auto, using(crate::proofs::TargetLemmas::seen_none, crate::proofs::TargetLemmas::seen_more, crate::proofs::TargetLemmas::seen_all))]
fn count_all(alloc: Global, tables: &[(Name, Held)]) -> Result<BTreeMap<Name, u64>, NoMemory>
    ensures { IfOk result (λ counts. HasCounts (names_in targets_inside (tables_of tables.now))
        counts) }
{
    let mut counts = BTreeMap::new(alloc);
    for entry in tables {
        count_keys(alloc, &mut counts, entry.1.foreign_keys())?;
    }
    Ok(counts)
}

/// Makes the counts of the tables where they are not known yet.
pub fn see_targets(
    alloc: Global,
    known: &mut Option<BTreeMap<Name, u64>>,
    tables: &[(Name, Held)],
) -> Result<(), NoMemory>
    requires { AreCounts (names_in targets_inside (tables_of tables.now)) known.old }
    ensures { AreCounts (names_in targets_inside (tables_of tables.now)) known.new }
{
    if known.is_some() {
        return Ok(());
    }
    *known = Some(count_all(alloc, tables)?);
    Ok(())
}

/// Counts the foreign keys of the shape, where the others are counted.
pub fn learn_targets(
    alloc: Global,
    known: &mut Option<BTreeMap<Name, u64>>,
    shape: &Shape,
) -> Result<(), NoMemory>
    ensures { OnOk result
        ((ns : List Name)
        → AreCounts ns known.old
        → AreCounts (map (λ f. f.table) shape.now.foreign ++ ns) known.new) }
{
    match known {
        None => Ok(()),
        Some(counts) => {
            count_keys(alloc, counts, shape.foreign.as_slice())?;
            Ok(())
        }
    }
}

/// Counts the foreign keys of the shape no longer.
pub fn unlearn_targets(
    alloc: Global,
    known: &mut Option<BTreeMap<Name, u64>>,
    shape: &Shape,
) -> Result<(), NoMemory>
    ensures { OnOk result
        ((ns : List Name)
        → AreCounts (map (λ f. f.table) shape.now.foreign ++ ns) known.old
        → AreCounts ns known.new) }
{
    match known {
        None => Ok(()),
        Some(counts) => {
            discount_keys(alloc, counts, shape.foreign.as_slice())?;
            Ok(())
        }
    }
}

/// How many of the foreign keys target the table.
pub fn aiming(keys: &[ForeignKey], table: &Name) -> u64
    ensures { result ≡ count_by (λ f. is_named table.now f.table) keys.now }
{
    keys.iter().filter(|key| *table == key.table).count() as u64
}
