ghost use Rattle.std.specs.List.{list_any};
ghost use Rattle.std.specs.Prelude.{◌≡◌, ◌∷◌, []};
ghost use Rattle.lq_base.specs.Name.{beside, is_named};
ghost use Rattle.lq_model.specs.NameSpaces.{names_inside};
ghost use Rattle.lq_model.specs.Catalogue.{is_in, constraint_names, index_names, key_list};
ghost use Rattle.lq_model.specs.NameSpaces as reserved;

use lq_base::{Dialect, Name, is_placed};
use lq_model::By;
use lq_rows::Held;

/// Whether the table's key has the name.
pub fn is_key(held: &Held, name: &Name) -> bool
    ensures { result ≡ list_any (λ k. is_named name.now k.name) (key_list held.now.now.key) }
{
    match held.key() {
        Some(key) => *name == key.name,
        None => false,
    }
}

/// Whether a unique constraint of the table has the name.
pub fn is_unique(held: &Held, name: &Name) -> bool
    ensures { result ≡ list_any (λ u. is_named name.now u.name) held.now.now.uniques }
{
    held.uniques().iter().any(|unique| *name == unique.name)
}

/// Whether a foreign key of the table has the name.
pub fn is_foreign(held: &Held, name: &Name) -> bool
    ensures { result ≡ list_any (λ f. is_named name.now f.name) held.now.now.foreign }
{
    held.foreign_keys().iter().any(|key| *name == key.name)
}

/// Whether an index of the table has the name.
pub fn is_index(held: &Held, name: &Name) -> bool
    ensures { result ≡ list_any (λ i. is_named name.now i.name) held.now.now.indexes }
{
    held.indexes().iter().any(|index| *name == index.name)
}

/// Whether the key, a unique constraint or a foreign key of the table has the name.
#[tactic(auto, using(crate::proofs::NameLemmas::constraint_is))]
pub fn is_constraint(held: &Held, name: &Name) -> bool
    ensures { result ≡ is_in name.now (constraint_names held.now.now) }
{
    is_key(held, name) || is_unique(held, name) || is_foreign(held, name)
}

/// Whether a unique constraint or an index of the table has the name.
#[tactic(auto, using(crate::proofs::NameLemmas::index_is))]
pub fn is_unique_or_index(held: &Held, name: &Name) -> bool
    ensures { result ≡ is_in name.now (index_names held.now.now) }
{
    is_unique(held, name) || is_index(held, name)
}

fn is_key_inside(table: &Name, held: &Held, name: &Name) -> bool
    ensures { result
        ≡ list_any (λ k. is_named name.now (beside table.now k.name))
        (key_list held.now.now.key) }
{
    match held.key() {
        Some(key) => is_placed(name, table, &key.name),
        None => false,
    }
}

fn is_unique_inside(table: &Name, held: &Held, name: &Name) -> bool
    ensures { result
        ≡ list_any (λ u. is_named name.now (beside table.now u.name)) held.now.now.uniques }
{
    held.uniques()
        .iter()
        .any(|unique| is_placed(name, table, &unique.name))
}

/// Whether an index of the table counts by the name.
pub fn is_index_inside(table: &Name, held: &Held, name: &Name) -> bool
    ensures { result
        ≡ list_any (λ i. is_named name.now (beside table.now i.name)) held.now.now.indexes }
{
    held.indexes()
        .iter()
        .any(|index| is_placed(name, table, &index.name))
}

/// Whether the key, a unique constraint or an index of the table counts by the name.
#[tactic(auto, using(crate::proofs::NameLemmas::inside_is))]
fn is_inside(table: &Name, held: &Held, name: &Name) -> bool
    ensures { result ≡ is_in name.now (names_inside (table.now, held.now.now)) }
{
    is_key_inside(table, held, name)
        || is_unique_inside(table, held, name)
        || is_index_inside(table, held, name)
}

fn one_is_inner(entry: &(Name, Held), name: &Name) -> bool
    ensures { result ≡ is_in name.now (names_inside (entry.now.0, entry.now.1.now)) }
{
    is_inside(&entry.0, &entry.1, name)
}

/// Whether the key, a unique constraint or an index of one of the tables counts by the name.
pub fn any_is_inner(tables: &[(Name, Held)], name: &Name) -> bool
    ensures { result
        ≡ list_any (λ e. is_in name.now (names_inside (e.0, e.1.now))) tables.now }
{
    tables.iter().any(|entry| one_is_inner(entry, name))
}

fn one_is_foreign(entry: &(Name, Held), name: &Name) -> bool
    ensures { result ≡ list_any (λ f. is_named name.now f.name) entry.now.1.now.foreign }
{
    is_foreign(&entry.1, name)
}

/// Whether a foreign key of one of the tables has the name.
pub fn any_is_foreign(tables: &[(Name, Held)], name: &Name) -> bool
    ensures { result
        ≡ list_any (λ e. list_any (λ f. is_named name.now f.name) e.1.now.foreign) tables.now }
{
    tables.iter().any(|entry| one_is_foreign(entry, name))
}

/// Whether the name is that of the lock table's key, which is always taken for a user in
/// PostgreSQL's shared space of `public`.
pub fn takes_lock_key(by: By, dialect: Dialect, name: &Name) -> bool
    ensures { result ≡ reserved.takes_lock_key by dialect (name.now ∷ []) }
{
    match by {
        By::Program => false,
        By::User => match dialect {
            Dialect::Mysql => false,
            Dialect::Postgresql => is_lock_key(name),
        },
    }
}

fn is_lock_key(name: &Name) -> bool
    ensures { result ≡ is_in reserved.lock_key (name.now ∷ []) }
{
    name.as_key() == "pk_DATABASECHANGELOGLOCK"
}
