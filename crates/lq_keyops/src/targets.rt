ghost use Rattle.std.specs.List.{list_any};
ghost use Rattle.std.specs.Option.{option_copied};
ghost use Rattle.std.specs.Prelude.{◌≡◌, ◌&&◌, ◌||◌, cond, not};
ghost use Rattle.lq_base.specs.Name.{is_named};
ghost use Rattle.lq_model.specs.Catalogue as spaces;
ghost use Rattle.lq_model.specs.Catalogue.{key_list};
ghost use Rattle.lq_keyops.specs.Targets.{aims_in_vain, any_aims_in_vain};

use lq_base::Name;
use lq_model::{ForeignKey, Key, Unique};
use lq_parts::Parts;
use lq_rows::{Held, Shape};

/// Whether two lists have the same names in the same order.
pub fn same_names(a: &[Name], b: &[Name]) -> bool
    ensures { result ≡ spaces.same_names a.now b.now }
{
    let mut left = b;
    for x in a {
        let Some((y, after)) = left.split_first() else {
            return false;
        };
        if *x != *y {
            return false;
        }
        left = after;
    }
    left.is_empty()
}

fn is_of_key(targets: &[Name], key: Option<&Key>) -> bool
    ensures { result
        ≡ list_any (λ k. spaces.same_names targets.now k.columns)
        (key_list (option_copied key.entry)) }
{
    match key {
        Some(key) => same_names(targets, key.columns.as_slice()),
        None => false,
    }
}

fn is_of_unique(targets: &[Name], uniques: &[Unique]) -> bool
    ensures { result ≡ list_any (λ u. spaces.same_names targets.now u.columns) uniques.now }
{
    uniques
        .iter()
        .any(|unique| same_names(targets, unique.columns.as_slice()))
}

/// Whether a foreign key may target these columns of a table of this key and these unique constraints.
pub fn is_target(targets: &[Name], key: Option<&Key>, uniques: &[Unique]) -> bool
    ensures { result
        ≡
        (list_any (λ k. spaces.same_names targets.now k.columns)
        (key_list (option_copied key.entry))
        || list_any (λ u. spaces.same_names targets.now u.columns) uniques.now) }
{
    is_of_key(targets, key) || is_of_unique(targets, uniques)
}

/// Whether a foreign key aims at the table and has nothing there to target, where the table has this
/// shape.
fn aims_in_vain(table: &Name, shape: &Shape, key: &ForeignKey) -> bool
    ensures { result ≡ aims_in_vain table.now shape.now key.now }
{
    *table == key.table
        && !is_target(
            key.targets.as_slice(),
            shape.key.as_ref(),
            shape.uniques.as_slice(),
        )
}

fn any_aims_in_vain(table: &Name, shape: &Shape, keys: &[ForeignKey]) -> bool
    ensures { result ≡ list_any (aims_in_vain table.now shape.now) keys.now }
{
    keys.iter().any(|key| aims_in_vain(table, shape, key))
}

fn entry_aims_in_vain(table: &Name, shape: &Shape, entry: &(Name, Held)) -> bool
    ensures { result ≡ any_aims_in_vain table.now shape.now entry.now.0 entry.now.1.now.foreign }
{
    if *table == entry.0 {
        return any_aims_in_vain(table, shape, shape.foreign.as_slice());
    }
    any_aims_in_vain(table, shape, entry.1.foreign_keys())
}

fn one_aims_in_vain(table: &Name, shape: &Shape, tables: &[(Name, Held)]) -> bool
    ensures { result
        ≡ list_any (λ e. any_aims_in_vain table.now shape.now e.0 e.1.now.foreign) tables.now }
{
    tables
        .iter()
        .any(|entry| entry_aims_in_vain(table, shape, entry))
}

/// Whether a foreign key loses its targets where the table gets this shape. No other table is looked at
/// where it is known that none targets this one.
#[tactic(auto, using(lq_model::proofs::Lists::any_mapped))]
pub fn loses_target(parts: &Parts, table: &Name, shape: &Shape) -> bool
    ensures { result
        ≡ list_any (λ e. any_aims_in_vain table.now shape.now e.0 e.1.foreign)
        parts.now.now.tables }
{
    if parts.is_untargeted(table) && !any_aims_in_vain(table, shape, shape.foreign.as_slice()) {
        return false;
    }
    one_aims_in_vain(table, shape, parts.tables())
}
