ghost use Rattle.std.specs.List.{list_any};
ghost use Rattle.std.specs.Prelude.{◌≡◌, ◌||◌, IfOk, map};
ghost use Rattle.lq_model.specs.Tables.{lacks_own, lists_twice};
ghost use Rattle.lq_model.specs.Catalogue.{repeats, key_list};
ghost use Rattle.lq_model.specs.Views.{lacks_column};
ghost use Rattle.lq_shapes.specs.Created.{made};

use crate::columns::Columns;
use crate::named::push_columns;
use crate::names::{repeats, repeats_in};
use crate::new_table::NewTable;
use lq_base::{Items, NoMemory};
use lq_model::{Column, ForeignKey, Key, Unique};
use std::alloc::Global;

fn key_lacks(own: &Columns<'_>, key: &Option<Key>) -> bool
    ensures { result ≡ list_any (λ k. lacks_column own.now k.columns) (key_list key.now) }
{
    match key {
        None => false,
        Some(key) => own.lack(key.columns.as_slice()),
    }
}

fn unique_lacks(own: &Columns<'_>, uniques: &[Unique]) -> bool
    ensures { result ≡ list_any (λ u. lacks_column own.now u.columns) uniques.now }
{
    uniques
        .iter()
        .any(|unique| own.lack(unique.columns.as_slice()))
}

fn foreign_lacks(own: &Columns<'_>, keys: &[ForeignKey]) -> bool
    ensures { result ≡ list_any (λ f. lacks_column own.now f.columns) keys.now }
{
    keys.iter().any(|key| own.lack(key.columns.as_slice()))
}

/// Whether a column that a key, unique constraint or foreign key names is not there.
pub fn lacks_own(own: &Columns<'_>, new: &NewTable<'_>) -> bool
    ensures { result
        ≡ lacks_own (made own.now new.now.key.now new.now.uniques.now new.now.foreign.now) }
{
    (key_lacks(own, new.key) | unique_lacks(own, new.uniques)) | foreign_lacks(own, new.foreign)
}

fn key_repeats(alloc: Global, key: &Option<Key>) -> Result<bool, NoMemory>
    ensures { IfOk result (λ found. found
        ≡ list_any (λ k. repeats k.columns) (key_list key.now)) }
{
    match key {
        None => Ok(false),
        Some(key) => repeats_in(alloc, key.columns.as_slice()),
    }
}

fn unique_repeats(alloc: Global, uniques: &[Unique]) -> Result<bool, NoMemory>
    ensures { IfOk result (λ found. found ≡ list_any (λ u. repeats u.columns) uniques.now) }
{
    for unique in uniques {
        if repeats_in(alloc, unique.columns.as_slice())? {
            return Ok(true);
        }
    }
    Ok(false)
}

fn foreign_repeats(alloc: Global, keys: &[ForeignKey]) -> Result<bool, NoMemory>
    ensures { IfOk result
        (λ found. found ≡ list_any (λ f. repeats f.columns || repeats f.targets) keys.now) }
{
    for key in keys {
        if one_repeats(alloc, key)? {
            return Ok(true);
        }
    }
    Ok(false)
}

fn one_repeats(alloc: Global, key: &ForeignKey) -> Result<bool, NoMemory>
    ensures { IfOk result (λ found. found
        ≡ (repeats key.now.columns || repeats key.now.targets)) }
{
    let columns = repeats_in(alloc, key.columns.as_slice())?;
    let targets = repeats_in(alloc, key.targets.as_slice())?;
    Ok(columns | targets)
}

fn columns_repeat(alloc: Global, columns: &[Column]) -> Result<bool, NoMemory>
    ensures { IfOk result (λ found. found ≡ repeats (map (λ c. c.name) columns.now)) }
{
    let mut names = Items::new(alloc);
    push_columns(&mut names, columns)?;
    let found = repeats(alloc, names.as_slice())?;
    Ok(found)
}

/// Whether a column is named twice in a list.
pub fn lists_twice(alloc: Global, columns: &[Column], new: &NewTable<'_>) -> Result<bool, NoMemory>
    ensures { IfOk result (λ found.
        found
        ≡ lists_twice (made columns.now new.now.key.now new.now.uniques.now
        new.now.foreign.now)) }
{
    let own = columns_repeat(alloc, columns)?;
    let key = key_repeats(alloc, new.key)?;
    let unique = unique_repeats(alloc, new.uniques)?;
    let foreign = foreign_repeats(alloc, new.foreign)?;
    Ok(own | ((key | unique) | foreign))
}
