ghost use Rattle.std.specs.List.{list_any};
ghost use Rattle.std.specs.Prelude.{◌≡◌, ◌∷◌, ◌||◌, [], IfOk, map};
ghost use Rattle.lq_base.specs.Name.{beside, is_named};
ghost use Rattle.lq_model.specs.NameSpaces.{all_foreign_names, shared_names, is_reserved, lock_key, takes_lock_key};
ghost use Rattle.lq_model.specs.Catalogue.{is_in, placed};

use lq_base::{Dialect, Name, NoMemory, placed};
use lq_model::By;
use lq_parts::Parts;
use lq_query::is_reserved;
use std::alloc::Global;

/// Whether one of the names is reserved to the program.
pub fn one_reserved(by: By, names: &[&Name]) -> bool
    ensures { result ≡ is_reserved by (map (λ n. n.now) names.now) }
{
    each_reserved(by, names)
}

fn each_reserved(by: By, names: &[&Name]) -> bool
    ensures { result ≡ list_any (λ n. is_reserved by (n.now ∷ [])) names.now }
{
    names.iter().any(|name| is_reserved(by, *name))
}

fn is_lock_key(name: &Name) -> bool
    ensures { result ≡ is_named lock_key name.now }
{
    "pk_DATABASECHANGELOGLOCK".cmp(name.as_key()).is_eq()
}

/// Whether the name inside the table counts as that of the lock table's key.
#[tactic(auto, using(lq_model::proofs::PublicNames::lock_key_here, lq_model::proofs::PublicNames::lock_key_there))]
fn is_inner_lock_key(table: &Name, name: &Name) -> bool
    ensures { result ≡ is_named lock_key (beside table.now name.now) }
{
    if table.is_elsewhere() {
        return false;
    }
    is_lock_key(name)
}

fn each_lock_key(table: &Name, names: &[&Name]) -> bool
    ensures { result ≡ list_any (λ n. is_named lock_key (beside table.now n.now)) names.now }
{
    names.iter().any(|name| is_inner_lock_key(table, *name))
}

fn has_lock_key(table: &Name, names: &[&Name]) -> bool
    ensures { result
        ≡
        (is_named lock_key table.now
        || list_any (λ n. is_named lock_key (beside table.now n.now)) names.now) }
{
    is_lock_key(table) || each_lock_key(table, names)
}

/// Whether a user makes, with a table and the names inside it, the name of the lock table's key in
/// PostgreSQL's shared space.
#[tactic(auto, using(crate::proofs::ClashLemmas::lock_key_inside))]
pub fn takes_lock_key(by: By, dialect: Dialect, table: &Name, names: &[&Name]) -> bool
    ensures { result
        ≡ takes_lock_key by dialect
        (table.now ∷ placed table.now (map (λ n. n.now) names.now)) }
{
    match (by, dialect) {
        (By::User, Dialect::Postgresql) => has_lock_key(table, names),
        _ => false,
    }
}

/// Whether the name inside the table stands in PostgreSQL's shared spaces.
fn stands_inside(
    parts: &mut Parts,
    alloc: Global,
    table: &Name,
    name: &Name,
) -> Result<bool, NoMemory>
    ensures found { IfOk result
        (λ found. found ≡ is_in (beside table.now name.now) (shared_names parts.old.now)) }
    ensures same { parts.new ≡ parts.old }
{
    let shared = placed(alloc, table, name)?;
    let found = parts.has_shared_name(&shared)?;
    Ok(found)
}

fn each_shared(
    parts: &mut Parts,
    alloc: Global,
    table: &Name,
    names: &[&Name],
) -> Result<bool, NoMemory>
    ensures found { IfOk result (λ found.
        found
        ≡ list_any (λ n. is_in (beside table.now n.now) (shared_names parts.old.now))
        names.now) }
    ensures same { parts.new ≡ parts.old }
{
    for name in names {
        if stands_inside(parts, alloc, table, *name)? {
            return Ok(true);
        }
    }
    Ok(false)
}

/// Whether the table's name or one of those inside it stands in PostgreSQL's shared spaces.
pub fn one_shared(
    parts: &mut Parts,
    alloc: Global,
    table: &Name,
    names: &[&Name],
) -> Result<bool, NoMemory>
    ensures found { IfOk result (λ found.
        found
        ≡ list_any (λ n. is_in n (shared_names parts.old.now))
        (table.now ∷ placed table.now (map (λ n. n.now) names.now))) }
    ensures same { parts.new ≡ parts.old }
{
    let own = parts.has_shared_name(table)?;
    let inner = each_shared(parts, alloc, table, names)?;
    Ok(own | inner)
}

fn each_foreign(parts: &mut Parts, names: &[&Name]) -> Result<bool, NoMemory>
    ensures found { IfOk result
        (λ found. found
        ≡ list_any (λ n. is_in n.now (all_foreign_names parts.old.now)) names.now) }
    ensures same { parts.new ≡ parts.old }
{
    for name in names {
        if parts.has_foreign_name(*name)? {
            return Ok(true);
        }
    }
    Ok(false)
}

/// Whether a foreign key has one of the names.
#[tactic(auto, using(lq_model::proofs::Lists::any_mapped))]
pub fn one_foreign(parts: &mut Parts, names: &[&Name]) -> Result<bool, NoMemory>
    ensures found { IfOk result (λ found.
        found
        ≡ list_any (λ n. is_in n (all_foreign_names parts.old.now))
        (map (λ n. n.now) names.now)) }
    ensures same { parts.new ≡ parts.old }
{
    let found = each_foreign(parts, names)?;
    Ok(found)
}
