ghost use Rattle.std.specs.List.{list_any};
ghost use Rattle.std.specs.Prelude.{◌≡◌, ◌++◌, IfOk, OnOk, map};
ghost use Rattle.lq_base.specs.Name.{is_elsewhere};
ghost use Rattle.lq_codec.specs.State.{own_names};
ghost use Rattle.lq_model.specs.Catalogue.{repeats, constraint_names, own_names as all_names};

use crate::columns::push_columns;
use lq_base::{Dialect, Items, Name, NoMemory};
use lq_model::Index;
use lq_rows::Held;
use lq_shapes::{push_foreign, push_key, push_uniques, repeats};
use std::alloc::Global;

/// Adds the names of indexes.
pub fn push_indexes<'a>(to: &mut Items<&'a Name>, indexes: &'a [Index]) -> Result<(), NoMemory>
    ensures { OnOk result (map
        (λ n. n.now) to.new ≡ map (λ n. n.now) to.old ++ map (λ i. i.name) indexes.now) }
{
    let mut rest = indexes;
    while let [index, after @ ..] = rest {
        to.push(&index.name)?;
        rest = after;
    }
    Ok(())
}

fn push_constraints<'a>(to: &mut Items<&'a Name>, held: &'a Held) -> Result<(), NoMemory>
    ensures { OnOk result (map
        (λ n. n.now) to.new ≡ map (λ n. n.now) to.old ++ constraint_names held.now.now) }
{
    push_key(to, &held.shape().key)?;
    push_uniques(to, held.uniques())?;
    push_foreign(to, held.foreign_keys())
}

fn push_own<'a>(to: &mut Items<&'a Name>, dialect: Dialect, held: &'a Held) -> Result<(), NoMemory>
    ensures { OnOk result (map
        (λ n. n.now) to.new ≡ map (λ n. n.now) to.old ++ own_names dialect held.now.now) }
{
    match dialect {
        Dialect::Postgresql => push_constraints(to, held),
        Dialect::Mysql => {
            push_uniques(to, held.uniques())?;
            push_indexes(to, held.indexes())
        }
    }
}

/// Whether two names of one table that have to differ are equal.
pub fn own_names_repeat(alloc: Global, dialect: Dialect, held: &Held) -> Result<bool, NoMemory>
    ensures { IfOk result (λ found. found ≡ repeats (own_names dialect held.now.now)) }
{
    let mut names = Items::new(alloc);
    push_own(&mut names, dialect, held)?;
    let found = repeats(alloc, names.as_slice())?;
    Ok(found)
}

/// Whether one of the names is in another schema than `public`.
pub fn one_elsewhere(names: &[&Name]) -> bool
    ensures { result ≡ list_any is_elsewhere (map (λ n. n.now) names.now) }
{
    for name in names {
        if name.is_elsewhere() {
            return true;
        }
    }
    false
}

fn push_all<'a>(to: &mut Items<&'a Name>, held: &'a Held) -> Result<(), NoMemory>
    ensures { OnOk result (map
        (λ n. n.now) to.new ≡ map (λ n. n.now) to.old ++ all_names held.now.now) }
{
    push_columns(to, held.columns())?;
    push_constraints(to, held)?;
    push_indexes(to, held.indexes())
}

/// Whether a column, a constraint or an index has a name in another schema than `public`.
pub fn own_names_elsewhere(alloc: Global, held: &Held) -> Result<bool, NoMemory>
    ensures { IfOk result (λ found. found ≡ list_any is_elsewhere (all_names held.now.now)) }
{
    let mut names = Items::new(alloc);
    push_all(&mut names, held)?;
    Ok(one_elsewhere(names.as_slice()))
}
