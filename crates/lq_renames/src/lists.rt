ghost use Rattle.std.specs.Option.{option_map};
ghost use Rattle.std.specs.Prelude.{◌≡◌, IfOk, map};
ghost use Rattle.lq_model.specs.Tables.{name_at, names_at};
ghost use Rattle.lq_renames.specs.Listed.{column_at, foreign_at, index_at, key_at, unique_at};

use lq_base::{Duplicate, Items, Name, NoMemory, both};
use lq_model::{Column, ForeignKey, Index, Key, Unique};
use std::alloc::Global;

/// A copy of the name, or the new one where the column is of the table and has the old one.
fn name_at(alloc: Global, own: bool, from: &Name, to: &Name, name: &Name) -> Result<Name, NoMemory>
    ensures { IfOk result (λ new. new ≡ name_at own from.now to.now name.now) }
{
    if own && *from == *name {
        return to.duplicate(alloc);
    }
    name.duplicate(alloc)
}

fn names_at(
    alloc: Global,
    own: bool,
    from: &Name,
    to: &Name,
    names: &[Name],
) -> Result<Items<Name>, NoMemory>
    ensures { IfOk result (λ all. all ≡ names_at own from.now to.now names.now) }
{
    let mut all = Items::new(alloc);
    for name in names {
        all.push(name_at(alloc, own, from, to, name)?)?;
    }
    Ok(all)
}

fn column(
    alloc: Global,
    own: bool,
    from: &Name,
    to: &Name,
    column: &Column,
) -> Result<Column, NoMemory>
    ensures { IfOk result (λ new. new ≡ column_at own from.now to.now column.now) }
{
    let (name, copy) = both(
        name_at(alloc, own, from, to, &column.name),
        column.duplicate(alloc),
    )?;
    let mut new = copy;
    new.name = name;
    Ok(new)
}

/// The columns with the new name.
pub fn columns(
    alloc: Global,
    own: bool,
    from: &Name,
    to: &Name,
    columns: &[Column],
) -> Result<Items<Column>, NoMemory>
    ensures { IfOk result (λ all. all ≡ map (column_at own from.now to.now) columns.now) }
{
    let mut all = Items::new(alloc);
    for old in columns {
        all.push(column(alloc, own, from, to, old)?)?;
    }
    Ok(all)
}

/// The key with the new name.
pub fn key(
    alloc: Global,
    own: bool,
    from: &Name,
    to: &Name,
    key: &Option<Key>,
) -> Result<Option<Key>, NoMemory>
    ensures { IfOk result (λ new. new ≡ option_map (key_at own from.now to.now) key.now) }
{
    match key {
        None => Ok(None),
        Some(key) => Ok(Some(Key {
            name: key.name.duplicate(alloc)?,
            columns: names_at(alloc, own, from, to, key.columns.as_slice())?,
        })),
    }
}

fn unique(
    alloc: Global,
    own: bool,
    from: &Name,
    to: &Name,
    unique: &Unique,
) -> Result<Unique, NoMemory>
    ensures { IfOk result (λ new. new ≡ unique_at own from.now to.now unique.now) }
{
    Ok(Unique {
        name: unique.name.duplicate(alloc)?,
        columns: names_at(alloc, own, from, to, unique.columns.as_slice())?,
    })
}

/// The unique constraints with the new name.
pub fn uniques(
    alloc: Global,
    own: bool,
    from: &Name,
    to: &Name,
    uniques: &[Unique],
) -> Result<Items<Unique>, NoMemory>
    ensures { IfOk result (λ all. all ≡ map (unique_at own from.now to.now) uniques.now) }
{
    let mut all = Items::new(alloc);
    for old in uniques {
        all.push(unique(alloc, own, from, to, old)?)?;
    }
    Ok(all)
}

fn index(alloc: Global, own: bool, from: &Name, to: &Name, index: &Index) -> Result<Index, NoMemory>
    ensures { IfOk result (λ new. new ≡ index_at own from.now to.now index.now) }
{
    Ok(Index {
        name: index.name.duplicate(alloc)?,
        columns: names_at(alloc, own, from, to, index.columns.as_slice())?,
        unique: index.unique,
    })
}

/// The indexes with the new name.
pub fn indexes(
    alloc: Global,
    own: bool,
    from: &Name,
    to: &Name,
    indexes: &[Index],
) -> Result<Items<Index>, NoMemory>
    ensures { IfOk result (λ all. all ≡ map (index_at own from.now to.now) indexes.now) }
{
    let mut all = Items::new(alloc);
    for old in indexes {
        all.push(index(alloc, own, from, to, old)?)?;
    }
    Ok(all)
}

fn foreign_key(
    alloc: Global,
    table: &Name,
    own: bool,
    from: &Name,
    to: &Name,
    key: &ForeignKey,
) -> Result<ForeignKey, NoMemory>
    ensures { IfOk result (λ new. new ≡ foreign_at table.now own from.now to.now key.now) }
{
    let aims = *table == key.table;
    Ok(ForeignKey {
        name: key.name.duplicate(alloc)?,
        columns: names_at(alloc, own, from, to, key.columns.as_slice())?,
        table: key.table.duplicate(alloc)?,
        targets: names_at(alloc, aims, from, to, key.targets.as_slice())?,
        cascade: key.cascade,
    })
}

/// The foreign keys with the new name among their columns, and among the targets of those that aim at
/// the table.
pub fn foreign_keys(
    alloc: Global,
    table: &Name,
    own: bool,
    from: &Name,
    to: &Name,
    keys: &[ForeignKey],
) -> Result<Items<ForeignKey>, NoMemory>
    ensures { IfOk result (λ all. all
        ≡ map (foreign_at table.now own from.now to.now) keys.now) }
{
    let mut all = Items::new(alloc);
    for key in keys {
        all.push(foreign_key(alloc, table, own, from, to, key)?)?;
    }
    Ok(all)
}
