ghost use Rattle.std.specs.List.{list_any};
ghost use Rattle.std.specs.Prelude.{◌≡◌, ◌++◌, ◌∷◌, ◌||◌, IfOk, List, OnOk, map};
ghost use Rattle.lq_base.specs.Name.{beside, is_named};
ghost use Rattle.lq_model.specs.NameSpaces.{all_foreign_names, are_clashing, is_taken, shared_names, is_reserved, takes_lock_key};
ghost use Rattle.lq_model.specs.Catalogue.{is_in, repeats, constraint_names, inner_names, placed};
ghost use Rattle.lq_model.specs.declared.column.Column.{Column};
ghost use Rattle.lq_base.specs.declared.dialect.Dialect.TheVariants as dialects;
ghost use Rattle.lq_shapes.specs.Created.{made};

use crate::clashes::{one_foreign, one_reserved, one_shared, takes_lock_key};
use lq_base::{Dialect, Items, Name, NoMemory, is_placed};
use lq_model::{By, ForeignKey, Unique};
use lq_parts::Parts;
use lq_shapes::{NewTable, push_foreign, push_key, push_targets, push_uniques, repeats};
use std::alloc::Global;

/// Adds the names of its key, its unique constraints and its foreign keys.
#[tactic(auto, using(crate::proofs::NamingLemmas::three_pushed))]
fn push_constraints<'a>(to: &mut Items<&'a Name>, new: &NewTable<'a>) -> Result<(), NoMemory>
    ensures { (cs : List Column)
        → OnOk result
        (map (λ n. n.now) to.new
        ≡ map (λ n. n.now) to.old
        ++ constraint_names
        (made cs new.now.key.now new.now.uniques.now new.now.foreign.now)) }
{
    push_key(to, new.key)?;
    push_uniques(to, new.uniques)?;
    push_foreign(to, new.foreign)?;
    Ok(())
}

/// Adds the names of its key and its unique constraints.
#[tactic(auto, using(crate::proofs::NamingLemmas::two_pushed))]
fn push_inner<'a>(to: &mut Items<&'a Name>, new: &NewTable<'a>) -> Result<(), NoMemory>
    ensures { (cs : List Column)
        → OnOk result
        (map (λ n. n.now) to.new
        ≡ map (λ n. n.now) to.old
        ++ inner_names
        (made cs new.now.key.now new.now.uniques.now new.now.foreign.now)) }
{
    push_key(to, new.key)?;
    push_uniques(to, new.uniques)?;
    Ok(())
}

/// Whether a user names what is reserved to the program.
pub fn names_reserved(alloc: Global, by: By, new: &NewTable<'_>) -> Result<bool, NoMemory>
    ensures { (cs : List Column)
        → IfOk result (λ found.
        found
        ≡ is_reserved by
        (new.now.name.now
        ∷ constraint_names
        (made cs new.now.key.now new.now.uniques.now new.now.foreign.now)
        ++ map (λ f. f.table) new.now.foreign.now)) }
{
    let mut names = Items::new(alloc);
    names.push(new.name)?;
    push_constraints(&mut names, new)?;
    push_targets(&mut names, new.foreign)?;
    Ok(one_reserved(by, names.as_slice()))
}

/// Whether a user names the lock table's key.
pub fn names_lock_key(
    alloc: Global,
    by: By,
    dialect: Dialect,
    new: &NewTable<'_>,
) -> Result<bool, NoMemory>
    ensures { (cs : List Column)
        → IfOk result (λ found.
        found
        ≡ takes_lock_key by dialect
        (new.now.name.now
        ∷ placed new.now.name.now
        (inner_names (made cs new.now.key.now new.now.uniques.now new.now.foreign.now)))) }
{
    let mut names = Items::new(alloc);
    push_inner(&mut names, new)?;
    Ok(takes_lock_key(by, dialect, new.name, names.as_slice()))
}

fn constraints_repeat(alloc: Global, new: &NewTable<'_>) -> Result<bool, NoMemory>
    ensures { (cs : List Column)
        → IfOk result (λ found.
        found
        ≡ repeats
        (constraint_names
        (made cs new.now.key.now new.now.uniques.now new.now.foreign.now))) }
{
    let mut names = Items::new(alloc);
    push_constraints(&mut names, new)?;
    let found = repeats(alloc, names.as_slice())?;
    Ok(found)
}

/// Whether one of the names inside the table counts by the table's own name.
fn each_is_own(table: &Name, names: &[&Name]) -> bool
    ensures { result ≡ list_any (λ n. is_named table.now (beside table.now n.now)) names.now }
{
    names.iter().any(|name| is_placed(table, table, *name))
}

/// Whether the key or a unique constraint has the table's name.
fn inner_is_own(alloc: Global, new: &NewTable<'_>) -> Result<bool, NoMemory>
    ensures { (cs : List Column)
        → IfOk result (λ found.
        found
        ≡ is_in new.now.name.now
        (placed new.now.name.now
        (inner_names (made cs new.now.key.now new.now.uniques.now new.now.foreign.now)))) }
{
    let mut names = Items::new(alloc);
    push_inner(&mut names, new)?;
    Ok(each_is_own(new.name, names.as_slice()))
}

/// Whether the table's name, its key's or a unique constraint's stands in PostgreSQL's shared
/// spaces.
fn shared_taken(parts: &mut Parts, alloc: Global, new: &NewTable<'_>) -> Result<bool, NoMemory>
    ensures found { (cs : List Column)
        → IfOk result (λ found.
        found
        ≡ list_any (λ n. is_in n (shared_names parts.old.now))
        (new.now.name.now
        ∷ placed new.now.name.now
        (inner_names (made cs new.now.key.now new.now.uniques.now new.now.foreign.now)))) }
    ensures same { parts.new ≡ parts.old }
{
    let mut names = Items::new(alloc);
    push_inner(&mut names, new)?;
    let found = one_shared(parts, alloc, new.name, names.as_slice())?;
    Ok(found)
}

fn clashes_shared(parts: &mut Parts, alloc: Global, new: &NewTable<'_>) -> Result<bool, NoMemory>
    ensures found { (cs : List Column)
        → IfOk result (λ found.
        found
        ≡
        (is_taken dialects.Postgresql new.now.name.now parts.old.now
        || are_clashing dialects.Postgresql new.now.name.now
        (made cs new.now.key.now new.now.uniques.now new.now.foreign.now)
        parts.old.now)) }
    ensures same { parts.new ≡ parts.old }
{
    let taken = shared_taken(parts, alloc, new)?;
    let twice = constraints_repeat(alloc, new)?;
    let own = inner_is_own(alloc, new)?;
    Ok(taken | (twice | own))
}

fn uniques_repeat(alloc: Global, uniques: &[Unique]) -> Result<bool, NoMemory>
    ensures { IfOk result (λ found. found ≡ repeats (map (λ u. u.name) uniques.now)) }
{
    let mut names = Items::new(alloc);
    push_uniques(&mut names, uniques)?;
    let found = repeats(alloc, names.as_slice())?;
    Ok(found)
}

fn foreign_repeat(alloc: Global, keys: &[ForeignKey]) -> Result<bool, NoMemory>
    ensures { IfOk result (λ found. found ≡ repeats (map (λ f. f.name) keys.now)) }
{
    let mut names = Items::new(alloc);
    push_foreign(&mut names, keys)?;
    let found = repeats(alloc, names.as_slice())?;
    Ok(found)
}

fn foreign_taken(parts: &mut Parts, alloc: Global, keys: &[ForeignKey]) -> Result<bool, NoMemory>
    ensures found { IfOk result (λ found.
        found
        ≡ list_any (λ n. is_in n (all_foreign_names parts.old.now))
        (map (λ f. f.name) keys.now)) }
    ensures same { parts.new ≡ parts.old }
{
    let mut names = Items::new(alloc);
    push_foreign(&mut names, keys)?;
    let found = one_foreign(parts, names.as_slice())?;
    Ok(found)
}

fn clashes_apart(parts: &mut Parts, alloc: Global, new: &NewTable<'_>) -> Result<bool, NoMemory>
    ensures found { (cs : List Column)
        → IfOk result (λ found.
        found
        ≡
        (is_taken dialects.Mysql new.now.name.now parts.old.now
        || are_clashing dialects.Mysql new.now.name.now
        (made cs new.now.key.now new.now.uniques.now new.now.foreign.now)
        parts.old.now)) }
    ensures same { parts.new ≡ parts.old }
{
    let is_there = parts.has_object(new.name);
    let twice = uniques_repeat(alloc, new.uniques)?;
    let foreign_twice = foreign_repeat(alloc, new.foreign)?;
    let taken = foreign_taken(parts, alloc, new.foreign)?;
    Ok(is_there | (twice | (foreign_twice | taken)))
}

/// Whether the table's name or one of its constraints' may not be had.
pub fn clashes(
    parts: &mut Parts,
    alloc: Global,
    dialect: Dialect,
    new: &NewTable<'_>,
) -> Result<bool, NoMemory>
    ensures found { (cs : List Column)
        → IfOk result (λ found.
        found
        ≡
        (is_taken dialect new.now.name.now parts.old.now
        || are_clashing dialect new.now.name.now
        (made cs new.now.key.now new.now.uniques.now new.now.foreign.now)
        parts.old.now)) }
    ensures same { parts.new ≡ parts.old }
{
    match dialect {
        Dialect::Postgresql => clashes_shared(parts, alloc, new),
        Dialect::Mysql => clashes_apart(parts, alloc, new),
    }
}
