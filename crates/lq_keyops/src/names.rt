ghost use Rattle.std.specs.Prelude.{◌≡◌, ◌∷◌, [], ◌||◌};
ghost use Rattle.lq_base.specs.Name.{beside};
ghost use Rattle.lq_base.specs.declared.name.Name.{Name as Bytes};
ghost use Rattle.lq_model.specs.NameSpaces as spaces;
ghost use Rattle.lq_model.specs.Catalogue.{is_in};
ghost use Rattle.lq_keyops.specs.Targets.{no_tests};

use lq_arm::{Tests, any_is_foreign, any_is_inner, is_constraint, is_unique_or_index};
use lq_base::{Dialect, Name, NoMemory};
use lq_model::By;
use lq_parts::Parts;
use lq_query::is_reserved;
use lq_rows::Held;

/// Whether one of two names is reserved to the program.
#[tactic(auto, using(crate::proofs::Ended::reserved_two))]
pub fn are_reserved(by: By, first: &Name, second: &Name) -> bool
    ensures { result ≡ spaces.is_reserved by (first.now ∷ second.now ∷ []) }
{
    is_reserved(by, first) || is_reserved(by, second)
}

/// Nothing is against a statement.
pub fn no_tests() -> Tests
    ensures { result ≡ no_tests }
{
    Tests {
        reserved: false,
        missing: false,
        exists: false,
        depends: false,
        wrong: false,
        wide: false,
        nulls: false,
        twins: false,
        orphans: false,
        children: false,
        full: false,
    }
}

/// Whether the name is taken in PostgreSQL's shared spaces. It looks at all tables.
fn stands_shared(parts: &Parts, name: &Name) -> bool
    ensures { result ≡ is_in name.now (spaces.shared_names parts.now.now) }
{
    parts.has_object(name) || any_is_inner(parts.tables(), name)
}

/// Whether the name is taken in PostgreSQL's shared spaces.
fn is_shared(parts: &Parts, name: &Name) -> bool
    ensures { result ≡ is_in name.now (spaces.shared_names parts.now.now) }
{
    match parts.knows_shared_name(name) {
        Some(found) => found,
        None => stands_shared(parts, name),
    }
}

/// Whether a unique constraint of the table may not have the name, which counts as the one that is
/// shared.
pub fn unique_taken(
    parts: &Parts,
    held: &Held,
    dialect: Dialect,
    name: &Name,
    shared: &Name,
) -> bool
    ensures { (table : Bytes)
        → shared.now ≡ beside table name.now
        → result ≡ spaces.unique_taken dialect table held.now.now name.now parts.now.now }
{
    match dialect {
        Dialect::Postgresql => is_shared(parts, shared) || is_constraint(held, name),
        Dialect::Mysql => is_unique_or_index(held, name),
    }
}

/// Whether the key of the table may not have the name, which counts as the one that is shared.
pub fn key_taken(parts: &Parts, held: &Held, dialect: Dialect, name: &Name, shared: &Name) -> bool
    ensures { (table : Bytes)
        → shared.now ≡ beside table name.now
        → result ≡ spaces.key_taken dialect table held.now.now name.now parts.now.now }
{
    match dialect {
        Dialect::Postgresql => is_shared(parts, shared) || is_constraint(held, name),
        Dialect::Mysql => false,
    }
}

/// Whether an index of the table may not have the name, which counts as the one that is shared.
pub fn index_taken(parts: &Parts, held: &Held, dialect: Dialect, name: &Name, shared: &Name) -> bool
    ensures { (table : Bytes)
        → shared.now ≡ beside table name.now
        → result ≡ spaces.index_taken dialect table held.now.now name.now parts.now.now }
{
    match dialect {
        Dialect::Postgresql => is_shared(parts, shared),
        Dialect::Mysql => is_unique_or_index(held, name),
    }
}

/// Whether a foreign key of any table has the name. It looks at all tables.
fn stands_foreign(parts: &Parts, name: &Name) -> bool
    ensures { result ≡ is_in name.now (spaces.all_foreign_names parts.now.now) }
{
    any_is_foreign(parts.tables(), name)
}

/// Whether a foreign key of any table has the name.
fn is_any_foreign(parts: &Parts, name: &Name) -> bool
    ensures { result ≡ is_in name.now (spaces.all_foreign_names parts.now.now) }
{
    match parts.knows_foreign_name(name) {
        Some(found) => found,
        None => stands_foreign(parts, name),
    }
}

/// The names of foreign keys get known once, for all statements, where they stand in one space.
pub fn learn_foreign(parts: &mut Parts, dialect: Dialect, name: &Name) -> Result<(), NoMemory>
    ensures { parts.new ≡ parts.old }
{
    match dialect {
        Dialect::Postgresql => Ok(()),
        Dialect::Mysql => {
            parts.has_foreign_name(name)?;
            Ok(())
        }
    }
}

/// Whether a foreign key of the table may not have the name.
pub fn foreign_taken(parts: &Parts, held: &Held, dialect: Dialect, name: &Name) -> bool
    ensures { result ≡ spaces.foreign_taken dialect held.now.now name.now parts.now.now }
{
    match dialect {
        Dialect::Postgresql => is_constraint(held, name),
        Dialect::Mysql => is_any_foreign(parts, name),
    }
}
