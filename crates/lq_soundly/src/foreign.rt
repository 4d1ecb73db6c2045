ghost use Rattle.std.specs.List.{list_any};
ghost use Rattle.std.specs.Option.{option_copied};
ghost use Rattle.std.specs.Prelude.{◌≡◌, ◌++◌, [], IfOk, map, not};
ghost use Rattle.lq_model.specs.Catalogue.{the_table, same_names, key_list};
ghost use Rattle.lq_model.specs.Kinds.{kind_of, same_kinds};
ghost use Rattle.lq_model.specs.Plan.{misses_target};
ghost use Rattle.lq_soundly.specs.Pieces.{differs_from};

use lq_base::{Name, NoMemory};
use lq_model::{ForeignKey, Key, Unique};
use lq_parts::Parts;
use lq_shapes::{Columns, kinds_agree};
use std::alloc::Global;

/// Whether two lists have the same names in the same order.
pub fn same_names(a: &[Name], b: &[Name]) -> bool
    ensures { result ≡ same_names a.now b.now }
{
    let mut rest = a;
    let mut others = b;
    while let Some((x, more)) = rest.split_first() {
        let Some((y, left)) = others.split_first() else {
            return false;
        };
        if *x != *y {
            return false;
        }
        rest = more;
        others = left;
    }
    are_none(others)
}

pub fn are_none(names: &[Name]) -> bool
    ensures { result ≡ same_names [] names.now }
{
    match names {
        [] => true,
        [_first, _rest @ ..] => false,
    }
}

fn key_is(names: &[Name], key: Option<&Key>) -> bool
    ensures { result ≡ list_any
        (λ k. same_names names.now k.columns) (key_list (option_copied key.entry)) }
{
    match key {
        None => false,
        Some(key) => same_names(names, key.columns.as_slice()),
    }
}

fn unique_is(names: &[Name], uniques: &[Unique]) -> bool
    ensures { result ≡ list_any (λ u. same_names names.now u.columns) uniques.now }
{
    uniques
        .iter()
        .any(|unique| same_names(names, unique.columns.as_slice()))
}

/// Whether the names are, in order, neither the key nor a unique constraint.
fn are_loose(names: &[Name], key: Option<&Key>, uniques: &[Unique]) -> bool
    ensures { result ≡ not (list_any (same_names names.now) (map
        (λ k. k.columns) (key_list (option_copied key.entry))
        ++ map (λ u. u.columns) uniques.now)) }
{
    !(key_is(names, key) | unique_is(names, uniques))
}

fn misses_target(parts: &Parts, key: &ForeignKey) -> bool
    ensures { result ≡ misses_target parts.now.now key.now }
{
    match parts.table(&key.table) {
        None => are_loose(key.targets.as_slice(), None, &[]),
        Some(held) => are_loose(key.targets.as_slice(), held.key(), held.uniques()),
    }
}

/// Whether a foreign key's targets are neither the key nor a unique constraint of their table.
pub fn one_misses(parts: &Parts, keys: &[ForeignKey]) -> bool
    ensures { result ≡ list_any (misses_target parts.now.now) keys.now }
{
    keys.iter().any(|key| misses_target(parts, key))
}

fn differs(
    alloc: Global,
    parts: &Parts,
    own: &Columns<'_>,
    key: &ForeignKey,
) -> Result<bool, NoMemory>
    ensures { IfOk result (λ found. found ≡ differs_from parts.now.now own.now key.now) }
{
    match parts.table(&key.table) {
        None => {
            let others = Columns::new(alloc, &[])?;
            Ok(!kinds_agree(own, key.columns.as_slice(), &others, key.targets.as_slice()))
        }
        Some(held) => {
            let others = Columns::new(alloc, held.columns())?;
            Ok(!kinds_agree(own, key.columns.as_slice(), &others, key.targets.as_slice()))
        }
    }
}

/// Whether a foreign key and its targets differ in number or kinds.
pub fn one_differs(
    alloc: Global,
    parts: &Parts,
    own: &Columns<'_>,
    keys: &[ForeignKey],
) -> Result<bool, NoMemory>
    ensures { IfOk result
        (λ found. found ≡ list_any (differs_from parts.now.now own.now) keys.now) }
{
    for key in keys {
        if differs(alloc, parts, own, key)? {
            return Ok(true);
        }
    }
    Ok(false)
}
