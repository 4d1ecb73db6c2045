ghost use Rattle.std.specs.Prelude.{◌≡◌, ◌∷◌, [], ◌||◌};
ghost use Rattle.lq_model.specs.NameSpaces as spaces;
ghost use Rattle.lq_model.specs.Catalogue.{is_in};
ghost use Rattle.lq_objectops.specs.Quiet.{no_tests};

use lq_arm::{Tests, any_is_inner, takes_lock_key};
use lq_base::{Dialect, Name};
use lq_model::By;
use lq_parts::Parts;
use lq_query::is_reserved;

/// Whether one of two names is reserved to the program.
#[tactic(auto, using(crate::proofs::Objects::reserved_two))]
pub fn are_reserved(by: By, first: &Name, second: &Name) -> bool
    ensures { result ≡ spaces.is_reserved by (first.now ∷ second.now ∷ []) }
{
    is_reserved(by, first) || is_reserved(by, second)
}

/// Whether the name is taken in PostgreSQL's shared spaces. It looks at all tables.
fn stands_shared(parts: &Parts, name: &Name) -> bool
    ensures { result ≡ is_in name.now (spaces.shared_names parts.now.now) }
{
    parts.has_object(name) || any_is_inner(parts.tables(), name)
}

/// Whether the name is taken in PostgreSQL's shared spaces.
fn is_shared(parts: &Parts, name: &Name) -> bool
    ensures { result ≡ is_in name.now (spaces.shared_names parts.now.now) }
{
    match parts.knows_shared_name(name) {
        Some(found) => found,
        None => stands_shared(parts, name),
    }
}

/// Whether a table, a view or a sequence may not have the name.
fn is_held(parts: &Parts, dialect: Dialect, name: &Name) -> bool
    ensures { result ≡ spaces.is_taken dialect name.now parts.now.now }
{
    match dialect {
        Dialect::Postgresql => is_shared(parts, name),
        Dialect::Mysql => parts.has_object(name),
    }
}

/// Whether a statement may not make a table, view or sequence of the name.
pub fn is_taken(parts: &Parts, by: By, dialect: Dialect, name: &Name) -> bool
    ensures { result
        ≡
        (spaces.is_taken dialect name.now parts.now.now
        || spaces.takes_lock_key by dialect (name.now ∷ [])) }
{
    is_held(parts, dialect, name) || takes_lock_key(by, dialect, name)
}

/// Whether a statement may not give what has one name the other.
pub fn is_taken_to(parts: &Parts, by: By, dialect: Dialect, name: &Name, to: &Name) -> bool
    ensures { result
        ≡
        (spaces.is_taken dialect to.now parts.now.now
        || spaces.takes_lock_key by dialect (name.now ∷ to.now ∷ [])) }
{
    is_taken(parts, by, dialect, to) | takes_lock_key(by, dialect, name)
}

/// Nothing is against a statement.
pub fn no_tests() -> Tests
    ensures { result ≡ no_tests }
{
    Tests {
        reserved: false,
        missing: false,
        exists: false,
        depends: false,
        wrong: false,
        wide: false,
        nulls: false,
        twins: false,
        orphans: false,
        children: false,
        full: false,
    }
}
