ghost use Rattle.std.specs.List.{list_all};
ghost use Rattle.std.specs.Option.{option_copied};
ghost use Rattle.std.specs.Prelude.{◌≡◌, ◌++◌, IfOk, OnOk, map};
ghost use Rattle.lq_model.specs.Catalogue.{is_in, repeats, key_list};
ghost use Rattle.lq_sound_table.specs.Pieces.{are_some_of, names_of};

use lq_base::{Items, Name, NoMemory};
use lq_model::{ForeignKey, Index, Key, Unique};
use lq_shapes::{Columns, repeats};
use std::alloc::Global;

/// Adds the names.
pub fn push_names<'a>(to: &mut Items<&'a Name>, names: &'a [Name]) -> Result<(), NoMemory>
    ensures { OnOk result (map (λ n. n.now) to.new ≡ map (λ n. n.now) to.old ++ names.now) }
{
    let mut rest = names;
    while let [name, after @ ..] = rest {
        to.push(name)?;
        rest = after;
    }
    Ok(())
}

/// Whether a name stands twice in the list.
pub fn repeats_in(alloc: Global, names: &[Name]) -> Result<bool, NoMemory>
    ensures { IfOk result (λ found. found ≡ repeats names.now) }
{
    let mut all = Items::new(alloc);
    push_names(&mut all, names)?;
    let found = repeats(alloc, all.as_slice())?;
    Ok(found)
}

fn has_all(own: &Columns<'_>, names: &[Name]) -> bool
    ensures { result ≡ list_all (λ n. is_in n (names_of own.now)) names.now }
{
    names.iter().all(|name| own.has(name))
}

/// Whether the names are at least one of the columns, none twice.
pub fn are_some_of(alloc: Global, own: &Columns<'_>, names: &[Name]) -> Result<bool, NoMemory>
    ensures { IfOk result (λ fits. fits ≡ are_some_of own.now names.now) }
{
    if names.is_empty() {
        return Ok(false);
    }
    if repeats_in(alloc, names)? {
        return Ok(false);
    }
    Ok(has_all(own, names))
}

fn key_fits(alloc: Global, own: &Columns<'_>, key: Option<&Key>) -> Result<bool, NoMemory>
    ensures { IfOk result
        (λ fits. fits ≡ list_all (λ k. are_some_of own.now k.columns) (key_list
        (option_copied key.entry))) }
{
    match key {
        None => Ok(true),
        Some(key) => are_some_of(alloc, own, key.columns.as_slice()),
    }
}

fn uniques_fit(alloc: Global, own: &Columns<'_>, uniques: &[Unique]) -> Result<bool, NoMemory>
    ensures { IfOk result
        (λ fits. fits ≡ list_all (λ u. are_some_of own.now u.columns) uniques.now) }
{
    for unique in uniques {
        if !are_some_of(alloc, own, unique.columns.as_slice())? {
            return Ok(false);
        }
    }
    Ok(true)
}

fn indexes_fit(alloc: Global, own: &Columns<'_>, indexes: &[Index]) -> Result<bool, NoMemory>
    ensures { IfOk result
        (λ fits. fits ≡ list_all (λ i. are_some_of own.now i.columns) indexes.now) }
{
    for index in indexes {
        if !are_some_of(alloc, own, index.columns.as_slice())? {
            return Ok(false);
        }
    }
    Ok(true)
}

/// Whether each foreign key names at least one of the columns, none twice.
pub fn foreign_fit(alloc: Global, own: &Columns<'_>, keys: &[ForeignKey]) -> Result<bool, NoMemory>
    ensures { IfOk result (λ fits. fits
        ≡ list_all (λ f. are_some_of own.now f.columns) keys.now) }
{
    for key in keys {
        if !are_some_of(alloc, own, key.columns.as_slice())? {
            return Ok(false);
        }
    }
    Ok(true)
}

/// Whether the key, each unique constraint and each index do.
pub fn lists_fit(
    alloc: Global,
    own: &Columns<'_>,
    key: Option<&Key>,
    uniques: &[Unique],
    indexes: &[Index],
) -> Result<bool, NoMemory>
    ensures { IfOk result
        (λ fits. fits ≡ list_all (are_some_of own.now) ((map (λ k. k.columns) (key_list
        (option_copied key.entry)) ++ map (λ u. u.columns) uniques.now)
        ++ map (λ i. i.columns) indexes.now)) }
{
    let key = key_fits(alloc, own, key)?;
    let uniques = uniques_fit(alloc, own, uniques)?;
    let indexes = indexes_fit(alloc, own, indexes)?;
    Ok((key & uniques) & indexes)
}
