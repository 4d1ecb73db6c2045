ghost use Rattle.std.specs.List.{filter};
ghost use Rattle.std.specs.Option.{option_copied};
ghost use Rattle.std.specs.Prelude.{◌≡◌, IfOk, not};
ghost use Rattle.lq_base.specs.Name.{beside, is_named};
ghost use Rattle.lq_model.specs.Constraints as spec;

use lq_base::{Duplicate, Items, Name, NoMemory, is_placed};
use lq_model::{ForeignKey, Index, Key, Unique};
use std::alloc::Global;

/// The foreign keys but those of the name.
pub fn foreign_without(
    alloc: Global,
    keys: &[ForeignKey],
    name: &Name,
) -> Result<Items<ForeignKey>, NoMemory>
    ensures { IfOk result (λ kept. kept ≡ spec.foreign_without name.now keys.now) }
{
    let mut kept = Items::new(alloc);
    for key in keys {
        if *name != key.name {
            kept.push(key.duplicate(alloc)?)?;
        }
    }
    Ok(kept)
}

/// The unique constraints but those of the name.
pub fn uniques_without(
    alloc: Global,
    uniques: &[Unique],
    name: &Name,
) -> Result<Items<Unique>, NoMemory>
    ensures { IfOk result (λ kept. kept ≡ spec.uniques_without name.now uniques.now) }
{
    let mut kept = Items::new(alloc);
    for unique in uniques {
        if *name != unique.name {
            kept.push(unique.duplicate(alloc)?)?;
        }
    }
    Ok(kept)
}

/// The indexes but those of the name.
pub fn indexes_without(
    alloc: Global,
    indexes: &[Index],
    name: &Name,
) -> Result<Items<Index>, NoMemory>
    ensures { IfOk result
        (λ kept. kept ≡ filter (λ i. not (is_named name.now i.name)) indexes.now) }
{
    let mut kept = Items::new(alloc);
    for index in indexes {
        if *name != index.name {
            kept.push(index.duplicate(alloc)?)?;
        }
    }
    Ok(kept)
}

/// The indexes of the table but those that count by the name.
pub fn indexes_without_in(
    alloc: Global,
    table: &Name,
    indexes: &[Index],
    name: &Name,
) -> Result<Items<Index>, NoMemory>
    ensures { IfOk result (λ kept.
        kept ≡ filter (λ i. not (is_named name.now (beside table.now i.name))) indexes.now) }
{
    let mut kept = Items::new(alloc);
    for index in indexes {
        if !is_placed(name, table, &index.name) {
            kept.push(index.duplicate(alloc)?)?;
        }
    }
    Ok(kept)
}

/// The key, unless it has the name.
pub fn key_without(alloc: Global, key: Option<&Key>, name: &Name) -> Result<Option<Key>, NoMemory>
    ensures { IfOk result (λ kept. kept ≡ spec.without_key name.now (option_copied key.entry)) }
{
    match key {
        None => Ok(None),
        Some(key) => {
            if *name == key.name {
                return Ok(None);
            }
            Ok(Some(key.duplicate(alloc)?))
        }
    }
}
