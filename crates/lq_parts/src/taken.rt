ghost use Rattle.std.specs.Map.{lookup, remove_entry, set_value};
ghost use Rattle.std.specs.BTreeMap.{insert_entry};
ghost use Rattle.std.specs.List.{count_by};
ghost use Rattle.std.specs.Prelude.{◌≡◌, ◌∷◌, ◌++◌, List, None, Some, [], IfOk, IfSome, OnOk, map};
ghost use Rattle.lq_base.specs.Name.{beside, is_named, name_cmp};
ghost use Rattle.lq_base.specs.declared.name.Name.{Name};
ghost use Rattle.lq_model.specs.Catalogue.{Table, is_in, foreign_names, key_list};
ghost use Rattle.lq_model.specs.NameSpaces.{names_inside};
ghost use Rattle.lq_parts.specs.Steps.{tables_of};
ghost use Rattle.lq_parts.specs.Taken.{AreCounts, AreKnown, Gains, HasCounts, HasJust, IsTrueOf, TableMap, begins, foreign_inside, foreign_stay, inner_stay, names_in, targets_inside};
ghost use Rattle.lq_rows.specs.Stored.{shape_of};

use crate::targets::{count_of, learn_targets, see_targets, unlearn_targets};
use lq_base::{Duplicate, Name, NoMemory, placed};
use lq_model::{ForeignKey, Index, Key, Unique};
use lq_rows::{Held, Shape};
use std::alloc::Global;
use std::collections::{BTreeMap, BTreeSet};

/// What is known of the names inside the tables: each set is made when it is first asked for.
#[derive(Drop)]
pub struct TakenNames {
    pub(crate) alloc: Global,
    /// The names of keys, unique constraints and indexes, where they count.
    pub(crate) inner: Option<BTreeSet<Name>>,
    /// The names of foreign keys.
    pub(crate) foreign: Option<BTreeSet<Name>>,
    /// How many foreign keys target each table.
    pub(crate) targets: Option<BTreeMap<Name, u64>>,
}

impl TakenNames {
    /// Nothing is known.
    #[tactic(auto, using(crate::proofs::TakenLemmas::none_known))]
    pub fn new(alloc: Global) -> TakenNames
        ensures { (tables : TableMap) → AreKnown tables result }
    {
        TakenNames {
            alloc,
            inner: None,
            foreign: None,
            targets: None,
        }
    }

    /// Nothing is known any longer.
    #[tactic(auto, using(crate::proofs::TakenLemmas::none_known))]
    pub fn forget(&mut self)
        ensures { (tables : TableMap) → AreKnown tables self.new }
    {
        self.inner = None;
        self.foreign = None;
        self.targets = None;
    }

    /// Whether the key, a unique constraint or an index of one of the tables has the name, where it
    /// counts.
    pub fn has_inner(&mut self, tables: &[(Name, Held)], name: &Name) -> Result<bool, NoMemory>
        requires { AreKnown (tables_of tables.now) self.old }
        ensures found { IfOk result
            (λ found. found ≡ is_in name.now (names_in names_inside (tables_of tables.now))) }
        ensures known { AreKnown (tables_of tables.now) self.new }
    {
        asked_inner(self.alloc, &mut self.inner, tables, name)
    }

    /// Whether a foreign key of one of the tables has the name.
    pub fn has_foreign(&mut self, tables: &[(Name, Held)], name: &Name) -> Result<bool, NoMemory>
        requires { AreKnown (tables_of tables.now) self.old }
        ensures found { IfOk result
            (λ found. found ≡ is_in name.now (names_in foreign_inside (tables_of tables.now))) }
        ensures known { AreKnown (tables_of tables.now) self.new }
    {
        asked_foreign(self.alloc, &mut self.foreign, tables, name)
    }

    /// Whether the key, a unique constraint or an index of one of the tables has the name, where that is
    /// known.
    pub fn knows_inner(&self, name: &Name) -> Option<bool>
        ensures { (tables : TableMap)
            → AreKnown tables self.now
            → IfSome result (λ found. found ≡ is_in name.now (names_in names_inside tables)) }
    {
        known_in(&self.inner, name)
    }

    /// Whether a foreign key of one of the tables has the name, where that is known.
    pub fn knows_foreign(&self, name: &Name) -> Option<bool>
        ensures { (tables : TableMap)
            → AreKnown tables self.now
            → IfSome result (λ found. found
            ≡ is_in name.now (names_in foreign_inside tables)) }
    {
        known_in(&self.foreign, name)
    }

    /// Makes known how many foreign keys target each table.
    pub fn see_targets(&mut self, tables: &[(Name, Held)]) -> Result<(), NoMemory>
        requires { AreKnown (tables_of tables.now) self.old }
        ensures { AreKnown (tables_of tables.now) self.new }
    {
        see_targets(self.alloc, &mut self.targets, tables)
    }

    /// How many foreign keys target the table, where that is known.
    pub fn knows_targets(&self, table: &Name) -> Option<u64>
        ensures { (tables : TableMap)
            → AreKnown tables self.now
            → IfSome result (λ count.
            count ≡ count_by (is_named table.now) (names_in targets_inside tables)) }
    {
        count_in(&self.targets, table)
    }

    /// Adds the names inside a new table to what is known, which it drops where memory is wanting.
    pub fn add(&mut self, table: &Name, shape: &Shape)
        ensures { (tables : TableMap) (it : Table)
            → shape.now ≡ shape_of it
            → lookup (is_named table.now) tables ≡ None
            → AreKnown tables self.old
            → AreKnown (insert_entry name_cmp tables table.now it) self.new }
    {
        match self.learn(table, shape) {
            Ok(()) => {}
            Err(NoMemory) => self.forget(),
        }
    }

    fn learn(&mut self, table: &Name, shape: &Shape) -> Result<(), NoMemory>
        ensures { OnOk result
            ((tables : TableMap) (it : Table)
            → shape.now ≡ shape_of it
            → lookup (is_named table.now) tables ≡ None
            → AreKnown tables self.old
            → AreKnown (insert_entry name_cmp tables table.now it) self.new) }
    {
        learn_inner(self.alloc, &mut self.inner, table, shape)?;
        learn_foreign(self.alloc, &mut self.foreign, shape)?;
        learn_targets(self.alloc, &mut self.targets, shape)?;
        Ok(())
    }

    /// What is known, after a table of this shape was taken away.
    pub fn take(&mut self, shape: &Shape)
        ensures { (tables : TableMap) (n : Name) (was : Table)
            → shape.now ≡ shape_of was
            → lookup (is_named n) tables ≡ Some was
            → AreKnown tables self.old
            → AreKnown (remove_entry (is_named n) tables) self.new }
    {
        self.inner = None;
        self.foreign = None;
        match unlearn_targets(self.alloc, &mut self.targets, shape) {
            Ok(()) => {}
            Err(NoMemory) => self.targets = None,
        }
    }

    /// What is known, after a table got another shape: all that was known, where the names of the old
    /// shape stay.
    pub fn reshape(&mut self, table: &Name, old: &Shape, new: &Shape)
        ensures { (tables : TableMap) (was it : Table)
            → old.now ≡ shape_of was
            → new.now ≡ shape_of it
            → lookup (is_named table.now) tables ≡ Some was
            → AreKnown tables self.old
            → AreKnown (set_value (is_named table.now) tables it) self.new }
    {
        match self.relearn(table, old, new) {
            Ok(()) => {}
            Err(NoMemory) => self.forget(),
        }
    }

    fn relearn(&mut self, table: &Name, old: &Shape, new: &Shape) -> Result<(), NoMemory>
        ensures { OnOk result
            ((tables : TableMap) (was it : Table)
            → old.now ≡ shape_of was
            → new.now ≡ shape_of it
            → lookup (is_named table.now) tables ≡ Some was
            → AreKnown tables self.old
            → AreKnown (set_value (is_named table.now) tables it) self.new) }
    {
        relearn_inner(self.alloc, &mut self.inner, table, old, new)?;
        relearn_foreign(self.alloc, &mut self.foreign, old, new)?;
        unlearn_targets(self.alloc, &mut self.targets, old)?;
        learn_targets(self.alloc, &mut self.targets, new)?;
        Ok(())
    }
}

fn known_in(known: &Option<BTreeSet<Name>>, name: &Name) -> Option<bool>
    ensures { (ns : List Name)
        → IsTrueOf ns known.now
        → IfSome result (λ found. found ≡ is_in name.now ns) }
{
    match known {
        None => None,
        Some(set) => Some(has_name(set, name)),
    }
}

fn count_in(known: &Option<BTreeMap<Name, u64>>, table: &Name) -> Option<u64>
    ensures { (ns : List Name)
        → AreCounts ns known.now
        → IfSome result (λ count. count ≡ count_by (is_named table.now) ns) }
{
    match known {
        None => None,
        Some(counts) => Some(counts_to(counts, table)),
    }
}

fn counts_to(counts: &BTreeMap<Name, u64>, table: &Name) -> u64
    ensures { (ns : List Name)
        → HasCounts ns counts.now
        → result ≡ count_by (is_named table.now) ns }
{
    count_of(counts, table)
}

/// Whether the set, which is made of the tables where it is not known yet, has the name.
fn asked_inner(
    alloc: Global,
    known: &mut Option<BTreeSet<Name>>,
    tables: &[(Name, Held)],
    name: &Name,
) -> Result<bool, NoMemory>
    requires { IsTrueOf (names_in names_inside (tables_of tables.now)) known.old }
    ensures found { IfOk result
        (λ found. found ≡ is_in name.now (names_in names_inside (tables_of tables.now))) }
    ensures known { IsTrueOf (names_in names_inside (tables_of tables.now)) known.new }
{
    if let Some(set) = known.as_ref() {
        return Ok(has_name(set, name));
    }
    let set = see_inner(alloc, tables)?;
    let found = has_name(&set, name);
    *known = Some(set);
    Ok(found)
}

/// The same of the names of foreign keys.
fn asked_foreign(
    alloc: Global,
    known: &mut Option<BTreeSet<Name>>,
    tables: &[(Name, Held)],
    name: &Name,
) -> Result<bool, NoMemory>
    requires { IsTrueOf (names_in foreign_inside (tables_of tables.now)) known.old }
    ensures found { IfOk result
        (λ found. found ≡ is_in name.now (names_in foreign_inside (tables_of tables.now))) }
    ensures known { IsTrueOf (names_in foreign_inside (tables_of tables.now)) known.new }
{
    if let Some(set) = known.as_ref() {
        return Ok(has_name(set, name));
    }
    let set = see_foreign(alloc, tables)?;
    let found = has_name(&set, name);
    *known = Some(set);
    Ok(found)
}

fn has_name(set: &BTreeSet<Name>, name: &Name) -> bool
    ensures { (ns : List Name) → HasJust ns set.now → result ≡ is_in name.now ns }
{
    set.contains(name)
}

/// Adds the names of the shape's key, unique constraints and indexes, where the others are known.
fn learn_inner(
    alloc: Global,
    known: &mut Option<BTreeSet<Name>>,
    table: &Name,
    shape: &Shape,
) -> Result<(), NoMemory>
    ensures { OnOk result
        ((it : Table) (ns : List Name)
        → shape.now ≡ shape_of it
        → IsTrueOf ns known.old
        → IsTrueOf (names_inside (table.now, it) ++ ns) known.new) }
{
    match known {
        None => Ok(()),
        Some(set) => {
            add_inner(alloc, set, table, shape)?;
            Ok(())
        }
    }
}

/// Adds the names of the shape's foreign keys, where the others are known.
fn learn_foreign(
    alloc: Global,
    known: &mut Option<BTreeSet<Name>>,
    shape: &Shape,
) -> Result<(), NoMemory>
    ensures { OnOk result
        ((it : Table) (ns : List Name)
        → shape.now ≡ shape_of it
        → IsTrueOf ns known.old
        → IsTrueOf (foreign_names it ++ ns) known.new) }
{
    match known {
        None => Ok(()),
        Some(set) => {
            add_foreign(alloc, set, shape)?;
            Ok(())
        }
    }
}

/// Adds the names of the new shape where those of the old one stay, and drops all otherwise.
fn relearn_inner(
    alloc: Global,
    known: &mut Option<BTreeSet<Name>>,
    table: &Name,
    old: &Shape,
    new: &Shape,
) -> Result<(), NoMemory>
    ensures { OnOk result
        ((tables : TableMap) (was it : Table)
        → old.now ≡ shape_of was
        → new.now ≡ shape_of it
        → lookup (is_named table.now) tables ≡ Some was
        → IsTrueOf (names_in names_inside tables) known.old
        → IsTrueOf (names_in names_inside (set_value (is_named table.now) tables it)) known.new) }
{
    if inner_stay(old, new) {
        learn_inner(alloc, known, table, new)?;
        return Ok(());
    }
    *known = None;
    Ok(())
}

/// The same of the names of foreign keys.
fn relearn_foreign(
    alloc: Global,
    known: &mut Option<BTreeSet<Name>>,
    old: &Shape,
    new: &Shape,
) -> Result<(), NoMemory>
    ensures { OnOk result
        ((tables : TableMap) (n : Name) (was it : Table)
        → old.now ≡ shape_of was
        → new.now ≡ shape_of it
        → lookup (is_named n) tables ≡ Some was
        → IsTrueOf (names_in foreign_inside tables) known.old
        → IsTrueOf (names_in foreign_inside (set_value (is_named n) tables it)) known.new) }
{
    if foreign_stay(old, new) {
        learn_foreign(alloc, known, new)?;
        return Ok(());
    }
    *known = None;
    Ok(())
}

/// Whether the names of the old shape's key, unique constraints and indexes stay, at their places.
fn inner_stay(old: &Shape, new: &Shape) -> bool
    ensures { result ≡ inner_stay old.now new.now }
{
    key_stays(&old.key, &new.key)
        & (uniques_stay(old.uniques.as_slice(), new.uniques.as_slice())
            & indexes_stay(old.indexes.as_slice(), new.indexes.as_slice()))
}

fn foreign_stay(old: &Shape, new: &Shape) -> bool
    ensures { result ≡ foreign_stay old.now new.now }
{
    keys_stay(old.foreign.as_slice(), new.foreign.as_slice())
}

fn key_stays(old: &Option<Key>, new: &Option<Key>) -> bool
    ensures { result
        ≡ begins (map (λ k. k.name) (key_list old.now)) (map (λ k. k.name) (key_list new.now)) }
{
    let Some(old) = old else {
        return true;
    };
    let Some(new) = new else {
        return false;
    };
    old.name == new.name
}

fn uniques_stay(old: &[Unique], new: &[Unique]) -> bool
    ensures { result ≡ begins (map (λ u. u.name) old.now) (map (λ u. u.name) new.now) }
{
    let mut left = new;
    for one in old {
        let Some((other, after)) = left.split_first() else {
            return false;
        };
        if one.name != other.name {
            return false;
        }
        left = after;
    }
    true
}

fn indexes_stay(old: &[Index], new: &[Index]) -> bool
    ensures { result ≡ begins (map (λ i. i.name) old.now) (map (λ i. i.name) new.now) }
{
    let mut left = new;
    for one in old {
        let Some((other, after)) = left.split_first() else {
            return false;
        };
        if one.name != other.name {
            return false;
        }
        left = after;
    }
    true
}

fn keys_stay(old: &[ForeignKey], new: &[ForeignKey]) -> bool
    ensures { result ≡ begins (map (λ f. f.name) old.now) (map (λ f. f.name) new.now) }
{
    let mut left = new;
    for one in old {
        let Some((other, after)) = left.split_first() else {
            return false;
        };
        if one.name != other.name {
            return false;
        }
        left = after;
    }
    true
}

#[tactic(auto, using(crate::proofs::TakenLemmas::sees_none, crate::proofs::TakenLemmas::sees_more, crate::proofs::TakenLemmas::sees_all))]
fn see_inner(alloc: Global, tables: &[(Name, Held)]) -> Result<BTreeSet<Name>, NoMemory>
    ensures { IfOk result (λ set. HasJust (names_in names_inside (tables_of tables.now)) set) }
{
    let mut set = BTreeSet::new(alloc);
    for entry in tables {
        add_inner(alloc, &mut set, &entry.0, entry.1.shape())?;
    }
    Ok(set)
}

#[tactic(auto, using(crate::proofs::TakenLemmas::sees_none, crate::proofs::TakenLemmas::sees_more, crate::proofs::TakenLemmas::sees_all))]
fn see_foreign(alloc: Global, tables: &[(Name, Held)]) -> Result<BTreeSet<Name>, NoMemory>
    ensures { IfOk result (λ set. HasJust (names_in foreign_inside (tables_of tables.now)) set) }
{
    let mut set = BTreeSet::new(alloc);
    for entry in tables {
        add_foreign(alloc, &mut set, entry.1.shape())?;
    }
    Ok(set)
}

fn add_inner(
    alloc: Global,
    set: &mut BTreeSet<Name>,
    table: &Name,
    shape: &Shape,
) -> Result<(), NoMemory>
    ensures { OnOk result
        ((it : Table)
        → shape.now ≡ shape_of it
        → Gains (names_inside (table.now, it)) set.old set.new) }
{
    add_key(alloc, set, table, &shape.key)?;
    add_uniques(alloc, set, table, shape.uniques.as_slice())?;
    add_indexes(alloc, set, table, shape.indexes.as_slice())?;
    Ok(())
}

#[tactic(auto, using(crate::proofs::TakenLemmas::foreign_gained))]
fn add_foreign(alloc: Global, set: &mut BTreeSet<Name>, shape: &Shape) -> Result<(), NoMemory>
    ensures { OnOk result
        ((it : Table) → shape.now ≡ shape_of it → Gains (foreign_names it) set.old set.new) }
{
    add_foreign_keys(alloc, set, shape.foreign.as_slice())?;
    Ok(())
}

#[tactic(auto, using(crate::proofs::TakenLemmas::gains_none))]
fn add_key(
    alloc: Global,
    set: &mut BTreeSet<Name>,
    table: &Name,
    key: &Option<Key>,
) -> Result<(), NoMemory>
    ensures { OnOk result
        (Gains (map (λ k. beside table.now k.name) (key_list key.now)) set.old set.new) }
{
    match key {
        None => Ok(()),
        Some(key) => {
            add_placed(alloc, set, table, &key.name)?;
            Ok(())
        }
    }
}

#[tactic(auto, using(crate::proofs::TakenLemmas::gathers_none, crate::proofs::TakenLemmas::gathers_more, crate::proofs::TakenLemmas::gathers_all))]
fn add_uniques(
    alloc: Global,
    set: &mut BTreeSet<Name>,
    table: &Name,
    uniques: &[Unique],
) -> Result<(), NoMemory>
    ensures { OnOk result (Gains (map (λ u. beside table.now u.name) uniques.now) set.old
        set.new) }
{
    for unique in uniques {
        add_placed(alloc, set, table, &unique.name)?;
    }
    Ok(())
}

#[tactic(auto, using(crate::proofs::TakenLemmas::gathers_none, crate::proofs::TakenLemmas::gathers_more, crate::proofs::TakenLemmas::gathers_all))]
fn add_indexes(
    alloc: Global,
    set: &mut BTreeSet<Name>,
    table: &Name,
    indexes: &[Index],
) -> Result<(), NoMemory>
    ensures { OnOk result (Gains (map (λ i. beside table.now i.name) indexes.now) set.old
        set.new) }
{
    for index in indexes {
        add_placed(alloc, set, table, &index.name)?;
    }
    Ok(())
}

#[tactic(auto, using(crate::proofs::TakenLemmas::gathers_none, crate::proofs::TakenLemmas::gathers_more, crate::proofs::TakenLemmas::gathers_all))]
fn add_foreign_keys(
    alloc: Global,
    set: &mut BTreeSet<Name>,
    keys: &[ForeignKey],
) -> Result<(), NoMemory>
    ensures { OnOk result (Gains (map (λ f. f.name) keys.now) set.old set.new) }
{
    for key in keys {
        add_name(alloc, set, &key.name)?;
    }
    Ok(())
}

#[tactic(auto, using(crate::proofs::TakenLemmas::gained))]
fn add_name(alloc: Global, set: &mut BTreeSet<Name>, name: &Name) -> Result<(), NoMemory>
    ensures { OnOk result (Gains (name.now ∷ []) set.old set.new) }
{
    set.insert(name.duplicate(alloc)?)?;
    Ok(())
}

#[tactic(auto, using(crate::proofs::TakenLemmas::gained))]
fn add_placed(
    alloc: Global,
    set: &mut BTreeSet<Name>,
    table: &Name,
    name: &Name,
) -> Result<(), NoMemory>
    ensures { OnOk result (Gains (beside table.now name.now ∷ []) set.old set.new) }
{
    set.insert(placed(alloc, table, name)?)?;
    Ok(())
}
