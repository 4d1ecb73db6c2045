ghost use Rattle.std.specs.Prelude.{◌≡◌, ◌∷◌, [], ◌||◌};
ghost use Rattle.lq_model.specs.NameSpaces as spaces;
ghost use Rattle.lq_model.specs.Catalogue.{is_in};
ghost use Rattle.lq_model.specs.Tables.{is_shown, is_viewed};

use lq_arm::{any_is_inner, takes_lock_key};
use lq_base::{Dialect, Name};
use lq_model::By;
use lq_parts::Parts;
use lq_query::is_reserved;
use lq_shapes::shows;

/// Whether one of two names is reserved to the program.
#[tactic(auto, using(crate::proofs::Renamed::reserved_two))]
pub fn are_reserved(by: By, first: &Name, second: &Name) -> bool
    ensures { result ≡ spaces.is_reserved by (first.now ∷ second.now ∷ []) }
{
    is_reserved(by, first) || is_reserved(by, second)
}

/// Whether the name is taken in PostgreSQL's shared spaces. It looks at all tables.
fn stands_shared(parts: &Parts, name: &Name) -> bool
    ensures { result ≡ is_in name.now (spaces.shared_names parts.now.now) }
{
    parts.has_object(name) || any_is_inner(parts.tables(), name)
}

/// Whether the name is taken in PostgreSQL's shared spaces.
fn is_shared(parts: &Parts, name: &Name) -> bool
    ensures { result ≡ is_in name.now (spaces.shared_names parts.now.now) }
{
    match parts.knows_shared_name(name) {
        Some(found) => found,
        None => stands_shared(parts, name),
    }
}

/// Whether a table, a view or a sequence may not have the name.
fn is_held(parts: &Parts, dialect: Dialect, name: &Name) -> bool
    ensures { result ≡ spaces.is_taken dialect name.now parts.now.now }
{
    match dialect {
        Dialect::Postgresql => is_shared(parts, name),
        Dialect::Mysql => parts.has_object(name),
    }
}

/// Whether a statement may not make a table, view or sequence of the name.
fn is_taken(parts: &Parts, by: By, dialect: Dialect, name: &Name) -> bool
    ensures { result
        ≡
        (spaces.is_taken dialect name.now parts.now.now
        || spaces.takes_lock_key by dialect (name.now ∷ [])) }
{
    is_held(parts, dialect, name) || takes_lock_key(by, dialect, name)
}

/// Whether a statement may not give what has one name the other.
pub fn is_taken_to(parts: &Parts, by: By, dialect: Dialect, name: &Name, to: &Name) -> bool
    ensures { result
        ≡
        (spaces.is_taken dialect to.now parts.now.now
        || spaces.takes_lock_key by dialect (name.now ∷ to.now ∷ [])) }
{
    is_taken(parts, by, dialect, to) | takes_lock_key(by, dialect, name)
}

/// Whether a view names the table.
pub fn is_viewed(parts: &Parts, table: &Name) -> bool
    ensures { result ≡ is_viewed parts.now.now table.now }
{
    parts
        .views()
        .iter()
        .any(|entry| *table == entry.1.query().table)
}

/// Whether a view names the column, among its columns or in its test.
pub fn is_shown(parts: &Parts, table: &Name, column: &Name) -> bool
    ensures { result ≡ is_shown parts.now.now table.now column.now }
{
    parts.views().iter().any(|entry| shows(entry.1.query(), entry.1.columns(), table, column))
}
