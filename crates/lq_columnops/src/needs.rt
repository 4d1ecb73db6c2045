ghost use Rattle.std.specs.List.{list_any};
ghost use Rattle.std.specs.Option.{option_copied};
ghost use Rattle.std.specs.Prelude.{◌≡◌, ◌||◌};
ghost use Rattle.lq_model.specs.Catalogue.{the_table, is_in, column_lists, key_list};
ghost use Rattle.lq_model.specs.Tables.{aims_at, is_aimed, is_bound, is_in_foreign, is_in_key, is_shown};

use lq_base::Name;
use lq_model::{ForeignKey, Index, Key, Unique};
use lq_parts::Parts;
use lq_rows::Held;
use lq_shapes::{is_in, shows};

/// Whether a view names the column, among its columns or in its test.
pub fn is_shown(parts: &Parts, table: &Name, column: &Name) -> bool
    ensures { result ≡ is_shown parts.now.now table.now column.now }
{
    parts.views().iter().any(|entry| shows(entry.1.query(), entry.1.columns(), table, column))
}

/// Whether the key of the table has the column.
pub fn is_in_key(parts: &Parts, table: &Name, column: &Name) -> bool
    ensures { result ≡ is_in_key (the_table parts.now.now table.now) column.now }
{
    match parts.table(table) {
        None => false,
        Some(held) => key_has(held.key(), column),
    }
}

fn key_has(key: Option<&Key>, column: &Name) -> bool
    ensures { result
        ≡ list_any (λ k. is_in column.now k.columns) (key_list (option_copied key.entry)) }
{
    match key {
        None => false,
        Some(key) => is_in(key.columns.as_slice(), column),
    }
}

fn unique_has(uniques: &[Unique], column: &Name) -> bool
    ensures { result ≡ list_any (λ u. is_in column.now u.columns) uniques.now }
{
    uniques
        .iter()
        .any(|unique| is_in(unique.columns.as_slice(), column))
}

fn index_has(indexes: &[Index], column: &Name) -> bool
    ensures { result ≡ list_any (λ i. is_in column.now i.columns) indexes.now }
{
    indexes
        .iter()
        .any(|index| is_in(index.columns.as_slice(), column))
}

fn is_listed(held: &Held, column: &Name) -> bool
    ensures { result ≡ list_any (is_in column.now) (column_lists held.now.now) }
{
    key_has(held.key(), column)
        | (unique_has(held.uniques(), column) | index_has(held.indexes(), column))
}

/// Whether a key, unique constraint, index or foreign key of the table has the column.
pub fn is_bound(parts: &Parts, table: &Name, column: &Name) -> bool
    ensures { result ≡ is_bound (the_table parts.now.now table.now) column.now }
{
    match parts.table(table) {
        None => false,
        Some(held) => is_listed(held, column) || foreign_has(held.foreign_keys(), column),
    }
}

/// Whether a foreign key of the table has the column.
pub fn is_in_foreign(parts: &Parts, table: &Name, column: &Name) -> bool
    ensures { result ≡ is_in_foreign (the_table parts.now.now table.now) column.now }
{
    match parts.table(table) {
        None => false,
        Some(held) => foreign_has(held.foreign_keys(), column),
    }
}

fn foreign_has(keys: &[ForeignKey], column: &Name) -> bool
    ensures { result ≡ list_any (λ f. is_in column.now f.columns) keys.now }
{
    keys.iter().any(|key| is_in(key.columns.as_slice(), column))
}

fn aims_at(table: &Name, column: &Name, key: &ForeignKey) -> bool
    ensures { result ≡ aims_at table.now column.now key.now }
{
    *table == key.table && is_in(key.targets.as_slice(), column)
}

fn has_aim(table: &Name, column: &Name, held: &Held) -> bool
    ensures { result ≡ list_any (aims_at table.now column.now) held.now.now.foreign }
{
    held.foreign_keys()
        .iter()
        .any(|key| aims_at(table, column, key))
}

fn one_aims(table: &Name, column: &Name, entries: &[(Name, Held)]) -> bool
    ensures { result
        ≡ list_any (λ e. list_any (aims_at table.now column.now) e.1.now.foreign) entries.now }
{
    entries.iter().any(|entry| has_aim(table, column, &entry.1))
}

/// Whether a foreign key targets the column.
#[tactic(auto, using(lq_model::proofs::Lists::any_mapped))]
pub fn is_aimed(parts: &Parts, table: &Name, column: &Name) -> bool
    ensures { result ≡ is_aimed parts.now.now table.now column.now }
{
    one_aims(table, column, parts.tables())
}
