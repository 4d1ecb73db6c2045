ghost use Rattle.std.specs.Prelude.{◌≡◌, OnOk, ◌++◌, map};
ghost use Rattle.lq_model.specs.Catalogue.{key_list};

use lq_base::{Items, Name, NoMemory};
use lq_model::{Column, ForeignKey, Key, Unique};

/// Adds the names.
pub fn push_names<'a>(to: &mut Items<&'a Name>, names: &'a [Name]) -> Result<(), NoMemory>
    ensures { OnOk result (map (λ n. n.now) to.new ≡ map (λ n. n.now) to.old ++ names.now) }
{
    let mut rest = names;
    while let [name, after @ ..] = rest {
        to.push(name)?;
        rest = after;
    }
    Ok(())
}

/// Adds the names of the columns.
pub fn push_columns<'a>(to: &mut Items<&'a Name>, columns: &'a [Column]) -> Result<(), NoMemory>
    ensures { OnOk result
        (map (λ n. n.now) to.new ≡ map (λ n. n.now) to.old ++ map (λ c. c.name) columns.now) }
{
    let mut rest = columns;
    while let [column, after @ ..] = rest {
        to.push(&column.name)?;
        rest = after;
    }
    Ok(())
}

/// Adds the name of the key, where there is one.
pub fn push_key<'a>(to: &mut Items<&'a Name>, key: &'a Option<Key>) -> Result<(), NoMemory>
    ensures { OnOk result
        (map (λ n. n.now) to.new
        ≡ map (λ n. n.now) to.old ++ map (λ k. k.name) (key_list key.now)) }
{
    match key {
        None => Ok(()),
        Some(key) => {
            to.push(&key.name)?;
            Ok(())
        }
    }
}

/// Adds the names of the unique constraints.
pub fn push_uniques<'a>(to: &mut Items<&'a Name>, uniques: &'a [Unique]) -> Result<(), NoMemory>
    ensures { OnOk result
        (map (λ n. n.now) to.new ≡ map (λ n. n.now) to.old ++ map (λ u. u.name) uniques.now) }
{
    let mut rest = uniques;
    while let [unique, after @ ..] = rest {
        to.push(&unique.name)?;
        rest = after;
    }
    Ok(())
}

/// Adds the names of the foreign keys.
pub fn push_foreign<'a>(to: &mut Items<&'a Name>, keys: &'a [ForeignKey]) -> Result<(), NoMemory>
    ensures { OnOk result
        (map (λ n. n.now) to.new ≡ map (λ n. n.now) to.old ++ map (λ f. f.name) keys.now) }
{
    let mut rest = keys;
    while let [key, after @ ..] = rest {
        to.push(&key.name)?;
        rest = after;
    }
    Ok(())
}

/// Adds the names of the tables that the foreign keys target.
pub fn push_targets<'a>(to: &mut Items<&'a Name>, keys: &'a [ForeignKey]) -> Result<(), NoMemory>
    ensures { OnOk result
        (map (λ n. n.now) to.new ≡ map (λ n. n.now) to.old ++ map (λ f. f.table) keys.now) }
{
    let mut rest = keys;
    while let [key, after @ ..] = rest {
        to.push(&key.table)?;
        rest = after;
    }
    Ok(())
}
