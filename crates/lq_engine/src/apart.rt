ghost use Rattle.std.specs.List.{list_any};
ghost use Rattle.std.specs.Option.{option_copied};
ghost use Rattle.std.specs.Prelude.{◌≡◌, ◌&&◌, ◌||◌, not};
ghost use Rattle.lq_base.specs.Name.{is_named};
ghost use Rattle.lq_engine.specs.State.{is_sought, is_tracking_table};
ghost use Rattle.lq_model.specs.NameSpaces.{names_inside, object_names, is_tracking, lock_key};
ghost use Rattle.lq_model.specs.Catalogue.{inner_names, key_list};
ghost use Rattle.lq_parts.specs.Taken.{IsOrdered};
ghost use Rattle.lq_store.specs.Journal.{is_apart, names_tracking, names_within, takes_key};
ghost use Rattle.lq_track.specs.Database.{users_of};
ghost use Rattle.lq_track.specs.Lock.{lock_table};
ghost use Rattle.lq_track.specs.Log.{log_table};

use lq_base::{Dialect, Name};
use lq_model::{By, ForeignKey, Index, Key, Unique};
use lq_parts::{Parts, Sequence, View};
use lq_query::is_reserved;
use lq_rows::Held;

/// Which names of users' objects are looked for.
#[derive(Clone, Copy)]
pub enum Sought {
    /// A tracking table's, in any case.
    Tracking,
    /// That of the lock table's key.
    LockKey,
}

#[tactic(auto, using(crate::proofs::ApartLemmas::reserved_alone))]
fn is_tracking(name: &Name) -> bool
    ensures { result ≡ is_tracking name.now }
{
    is_reserved(By::User, name)
}

fn is_lock_key(name: &Name) -> bool
    ensures { result ≡ is_named lock_key name.now }
{
    "pk_DATABASECHANGELOGLOCK".cmp(name.as_key()).is_eq()
}

fn is_sought(sought: Sought, name: &Name) -> bool
    ensures { result ≡ is_sought sought name.now }
{
    match sought {
        Sought::Tracking => is_tracking(name),
        Sought::LockKey => is_lock_key(name),
    }
}

#[tactic(auto, unfolding(lq_track::specs::Log::log_table))]
fn is_log_table(name: &Name) -> bool
    ensures { result ≡ is_named log_table name.now }
{
    "DATABASECHANGELOG".cmp(name.as_key()).is_eq()
}

#[tactic(auto, unfolding(lq_track::specs::Lock::lock_table))]
fn is_lock_table(name: &Name) -> bool
    ensures { result ≡ is_named lock_table name.now }
{
    "DATABASECHANGELOGLOCK".cmp(name.as_key()).is_eq()
}

fn is_tracking_table(name: &Name) -> bool
    ensures { result ≡ is_tracking_table name.now }
{
    is_log_table(name) | is_lock_table(name)
}

fn key_named(sought: Sought, key: Option<&Key>) -> bool
    ensures { result
        ≡ list_any (λ k. is_sought sought k.name) (key_list (option_copied key.entry)) }
{
    match key {
        None => false,
        Some(key) => is_sought(sought, &key.name),
    }
}

fn unique_named(sought: Sought, uniques: &[Unique]) -> bool
    ensures { result ≡ list_any (λ u. is_sought sought u.name) uniques.now }
{
    uniques.iter().any(|unique| is_sought(sought, &unique.name))
}

fn index_named(sought: Sought, indexes: &[Index]) -> bool
    ensures { result ≡ list_any (λ i. is_sought sought i.name) indexes.now }
{
    indexes.iter().any(|index| is_sought(sought, &index.name))
}

fn foreign_named(keys: &[ForeignKey]) -> bool
    ensures { result ≡ list_any (λ f. is_tracking f.name) keys.now }
{
    keys.iter().any(|key| is_tracking(&key.name))
}

fn foreign_aimed(keys: &[ForeignKey]) -> bool
    ensures { result ≡ list_any (λ f. is_tracking f.table) keys.now }
{
    keys.iter().any(|key| is_tracking(&key.table))
}

/// Whether the table's key, a unique constraint or an index of it has such a name.
fn inner_named(sought: Sought, held: &Held) -> bool
    ensures { result ≡ list_any (is_sought sought) (inner_names held.now.now) }
{
    key_named(sought, held.key())
        | (unique_named(sought, held.uniques()) | index_named(sought, held.indexes()))
}

/// Whether a part of the table has, or names, the name of a tracking table.
fn within_named(held: &Held) -> bool
    ensures { result ≡ list_any is_tracking (names_within held.now.now) }
{
    inner_named(Sought::Tracking, held)
        | (foreign_named(held.foreign_keys()) | foreign_aimed(held.foreign_keys()))
}

fn users_table_named(sought: Sought, table: &Name) -> bool
    ensures { result ≡ (not (is_tracking_table table.now) && is_sought sought table.now) }
{
    !is_tracking_table(table) & is_sought(sought, table)
}

/// Whether the table's key, a unique constraint or an index of it counts by the name of the lock
/// table's key: that is in `public`.
#[tactic(auto, using(lq_model::proofs::PublicNames::lock_key_placed))]
fn lock_key_inside(table: &Name, held: &Held) -> bool
    ensures { result ≡ list_any (is_named lock_key) (names_inside (table.now, held.now.now)) }
{
    !table.is_elsewhere() & inner_named(Sought::LockKey, held)
}

fn users_key_named(table: &Name, held: &Held) -> bool
    ensures { result
        ≡
        (not (is_tracking_table table.now)
        && list_any (is_named lock_key) (names_inside (table.now, held.now.now))) }
{
    !is_tracking_table(table) & lock_key_inside(table, held)
}

fn users_within_named(table: &Name, held: &Held) -> bool
    ensures { result
        ≡ (not (is_tracking_table table.now) && list_any is_tracking
        (names_within held.now.now)) }
{
    !is_tracking_table(table) & within_named(held)
}

fn one_table(sought: Sought, entries: &[(Name, Held)]) -> bool
    ensures { result
        ≡ list_any (λ e. not (is_tracking_table e.0) && is_sought sought e.0) entries.now }
{
    entries
        .iter()
        .any(|entry| users_table_named(sought, &entry.0))
}

fn one_key(entries: &[(Name, Held)]) -> bool
    ensures { result
        ≡ list_any
        (λ e. not (is_tracking_table e.0)
        && list_any (is_named lock_key) (names_inside (e.0, e.1.now))) entries.now }
{
    entries
        .iter()
        .any(|entry| users_key_named(&entry.0, &entry.1))
}

fn one_within(entries: &[(Name, Held)]) -> bool
    ensures { result
        ≡ list_any (λ e. not (is_tracking_table e.0) && list_any is_tracking
        (names_within e.1.now))
        entries.now }
{
    entries
        .iter()
        .any(|entry| users_within_named(&entry.0, &entry.1))
}

fn one_view(sought: Sought, entries: &[(Name, View)]) -> bool
    ensures { result ≡ list_any (λ e. is_sought sought e.0) entries.now }
{
    entries.iter().any(|entry| is_sought(sought, &entry.0))
}

fn one_shows(entries: &[(Name, View)]) -> bool
    ensures { result ≡ list_any (λ e. is_tracking e.1.query.table) entries.now }
{
    entries
        .iter()
        .any(|entry| is_tracking(&entry.1.query().table))
}

fn one_sequence(sought: Sought, entries: &[(Name, Sequence)]) -> bool
    ensures { result ≡ list_any (λ e. is_sought sought e.0) entries.now }
{
    entries.iter().any(|entry| is_sought(sought, &entry.0))
}

#[tactic(auto, using(lq_model::proofs::Lists::any_mapped))]
fn table_named(sought: Sought, parts: &Parts) -> bool
    ensures { result
        ≡ list_any (λ e. not (is_tracking_table e.0) && is_sought sought e.0)
        parts.now.now.tables }
{
    one_table(sought, parts.tables())
}

#[tactic(auto, using(lq_model::proofs::Lists::any_mapped))]
fn table_has_key(parts: &Parts) -> bool
    ensures { result
        ≡ list_any
        (λ e. not (is_tracking_table e.0) && list_any (is_named lock_key) (names_inside e))
        parts.now.now.tables }
{
    one_key(parts.tables())
}

#[tactic(auto, using(lq_model::proofs::Lists::any_mapped))]
fn table_names_tracking(parts: &Parts) -> bool
    ensures { result
        ≡ list_any (λ e. not (is_tracking_table e.0) && list_any is_tracking (names_within e.1))
        parts.now.now.tables }
{
    one_within(parts.tables())
}

/// Whether a table, view or sequence of the users has such a name.
fn object_named(sought: Sought, parts: &Parts) -> bool
    requires { IsOrdered parts.now.now.tables }
    ensures { result ≡ list_any (is_sought sought) (object_names (users_of parts.now.now)) }
{
    table_named(sought, parts)
        | (one_view(sought, parts.views()) | one_sequence(sought, parts.sequences()))
}

fn names_tracking(parts: &Parts) -> bool
    requires { IsOrdered parts.now.now.tables }
    ensures { result ≡ names_tracking (users_of parts.now.now) }
{
    object_named(Sought::Tracking, parts) | (table_names_tracking(parts) | one_shows(parts.views()))
}

fn has_key(parts: &Parts) -> bool
    requires { IsOrdered parts.now.now.tables }
    ensures { result ≡ takes_key Dialect.Postgresql (users_of parts.now.now) }
{
    object_named(Sought::LockKey, parts) | table_has_key(parts)
}

fn takes_key(parts: &Parts, dialect: Dialect) -> bool
    requires { IsOrdered parts.now.now.tables }
    ensures { result ≡ takes_key dialect (users_of parts.now.now) }
{
    match dialect {
        Dialect::Postgresql => has_key(parts),
        Dialect::Mysql => false,
    }
}

/// Whether the users' objects leave the names of the tracking tables, in any case, and of the lock
/// table's key alone.
pub fn is_apart(parts: &Parts, dialect: Dialect) -> bool
    requires { IsOrdered parts.now.now.tables }
    ensures { result ≡ is_apart dialect (users_of parts.now.now) }
{
    !names_tracking(parts) & !takes_key(parts, dialect)
}
