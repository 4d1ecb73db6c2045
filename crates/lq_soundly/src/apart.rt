ghost use Rattle.std.specs.List.{flat_map, list_any};
ghost use Rattle.std.specs.Prelude.{◌≡◌, ◌++◌, IfOk, OnOk, map, not};
ghost use Rattle.lq_base.specs.Name.{is_elsewhere};
ghost use Rattle.lq_model.specs.NameSpaces.{all_foreign_names, names_inside, object_names, shared_names};
ghost use Rattle.lq_model.specs.Catalogue.{repeats, foreign_names, inner_names, placed};
ghost use Rattle.lq_model.specs.Sound.{may_name};
ghost use Rattle.lq_parts.specs.Steps.{tables_of};
ghost use Rattle.lq_codec.specs.State.{are_apart};

use lq_base::{Dialect, Items, Name, NoMemory, placed};
use lq_parts::Parts;
use lq_rows::Held;
use lq_shapes::{push_foreign, push_key, push_uniques, repeats};
use lq_sound_table::{one_elsewhere, push_indexes, push_names};
use std::alloc::Global;

/// Adds the names of the entries.
fn push_entries<'a, T>(to: &mut Items<&'a Name>, entries: &'a [(Name, T)]) -> Result<(), NoMemory>
    ensures { OnOk result (map
        (λ n. n.now) to.new ≡ map (λ n. n.now) to.old ++ map (λ e. e.0) entries.now) }
{
    let mut rest = entries;
    while let [entry, after @ ..] = rest {
        to.push(&entry.0)?;
        rest = after;
    }
    Ok(())
}

fn push_tables<'a>(to: &mut Items<&'a Name>, entries: &'a [(Name, Held)]) -> Result<(), NoMemory>
    ensures { OnOk result (map
        (λ n. n.now) to.new
        ≡ map (λ n. n.now) to.old ++ map (λ e. e.0) (tables_of entries.now)) }
{
    let mut rest = entries;
    while let [entry, after @ ..] = rest {
        to.push(&entry.0)?;
        rest = after;
    }
    Ok(())
}

fn push_inner<'a>(to: &mut Items<&'a Name>, held: &'a Held) -> Result<(), NoMemory>
    ensures { OnOk result (map
        (λ n. n.now) to.new ≡ map (λ n. n.now) to.old ++ inner_names held.now.now) }
{
    push_key(to, &held.shape().key)?;
    push_uniques(to, held.uniques())?;
    push_indexes(to, held.indexes())
}

/// Adds the names where they count: in the table's schema.
fn push_placed(
    alloc: Global,
    to: &mut Items<Name>,
    table: &Name,
    names: &[&Name],
) -> Result<(), NoMemory>
    ensures { OnOk result
        (to.new ≡ to.old ++ placed table.now (map (λ n. n.now) names.now)) }
{
    for name in names {
        let there = placed(alloc, table, *name)?;
        to.push(there)?;
    }
    Ok(())
}

fn push_inside(
    alloc: Global,
    to: &mut Items<Name>,
    table: &Name,
    held: &Held,
) -> Result<(), NoMemory>
    ensures { OnOk result (to.new ≡ to.old ++ names_inside (table.now, held.now.now)) }
{
    let mut inner = Items::new(alloc);
    push_inner(&mut inner, held)?;
    push_placed(alloc, to, table, inner.as_slice())?;
    Ok(())
}

/// The names of keys, unique constraints and indexes of all tables, where they count.
fn all_inside(alloc: Global, entries: &[(Name, Held)]) -> Result<Items<Name>, NoMemory>
    ensures { IfOk result (λ names. names ≡ flat_map names_inside (tables_of entries.now)) }
{
    let mut names = Items::new(alloc);
    for entry in entries {
        push_inside(alloc, &mut names, &entry.0, &entry.1)?;
    }
    Ok(names)
}

fn push_all_foreign<'a>(
    to: &mut Items<&'a Name>,
    entries: &'a [(Name, Held)],
) -> Result<(), NoMemory>
    ensures { OnOk result (map
        (λ n. n.now) to.new ≡ map (λ n. n.now) to.old
        ++ flat_map (λ e. foreign_names e.1) (tables_of entries.now)) }
{
    let mut rest = entries;
    while let [entry, after @ ..] = rest {
        push_foreign(to, entry.1.foreign_keys())?;
        rest = after;
    }
    Ok(())
}

fn push_objects<'a>(to: &mut Items<&'a Name>, parts: &'a Parts) -> Result<(), NoMemory>
    ensures { OnOk result (map
        (λ n. n.now) to.new ≡ map (λ n. n.now) to.old ++ object_names parts.now.now) }
{
    push_tables(to, parts.tables())?;
    push_entries(to, parts.views())?;
    push_entries(to, parts.sequences())
}

fn objects_repeat(alloc: Global, parts: &Parts) -> Result<bool, NoMemory>
    ensures { IfOk result (λ found. found ≡ repeats (object_names parts.now.now)) }
{
    let mut names = Items::new(alloc);
    push_objects(&mut names, parts)?;
    let found = repeats(alloc, names.as_slice())?;
    Ok(found)
}

/// Whether one of the names of the objects and of these names stands there twice.
fn repeats_with(alloc: Global, parts: &Parts, inside: &[Name]) -> Result<bool, NoMemory>
    ensures { IfOk result
        (λ found. found ≡ repeats (object_names parts.now.now ++ inside.now)) }
{
    let mut names = Items::new(alloc);
    push_objects(&mut names, parts)?;
    push_names(&mut names, inside)?;
    let found = repeats(alloc, names.as_slice())?;
    Ok(found)
}

fn shared_repeat(alloc: Global, parts: &Parts) -> Result<bool, NoMemory>
    ensures { IfOk result (λ found. found ≡ repeats (shared_names parts.now.now)) }
{
    let inside = all_inside(alloc, parts.tables())?;
    let found = repeats_with(alloc, parts, inside.as_slice())?;
    Ok(found)
}

fn foreign_repeat(alloc: Global, parts: &Parts) -> Result<bool, NoMemory>
    ensures { IfOk result (λ found. found ≡ repeats (all_foreign_names parts.now.now)) }
{
    let mut names = Items::new(alloc);
    push_all_foreign(&mut names, parts.tables())?;
    let found = repeats(alloc, names.as_slice())?;
    Ok(found)
}

/// Whether names differ in their spaces: by sets of them, in O(n log n).
pub fn are_apart(alloc: Global, dialect: Dialect, parts: &Parts) -> Result<bool, NoMemory>
    ensures { IfOk result (λ apart. apart ≡ are_apart dialect parts.now.now) }
{
    match dialect {
        Dialect::Postgresql => {
            let found = shared_repeat(alloc, parts)?;
            Ok(!found)
        }
        Dialect::Mysql => {
            let objects = objects_repeat(alloc, parts)?;
            let foreign = foreign_repeat(alloc, parts)?;
            Ok(!objects & !foreign)
        }
    }
}

fn one_object_elsewhere(alloc: Global, parts: &Parts) -> Result<bool, NoMemory>
    ensures { IfOk result
        (λ found. found ≡ list_any is_elsewhere (object_names parts.now.now)) }
{
    let mut names = Items::new(alloc);
    push_objects(&mut names, parts)?;
    Ok(one_elsewhere(names.as_slice()))
}

/// Whether the objects may have their names: under MySQL each is in the schema `public`.
pub fn may_name(alloc: Global, dialect: Dialect, parts: &Parts) -> Result<bool, NoMemory>
    ensures { IfOk result
        (λ fits. fits ≡ may_name dialect (object_names parts.now.now)) }
{
    match dialect {
        Dialect::Postgresql => Ok(true),
        Dialect::Mysql => {
            let found = one_object_elsewhere(alloc, parts)?;
            Ok(!found)
        }
    }
}
