ghost use Rattle.std.specs.List.{list_all};
ghost use Rattle.std.specs.Option.{option_copied};
ghost use Rattle.std.specs.Prelude.{◌≡◌, ◌++◌, ◌∷◌, [], IfOk, OnOk, map, not, ◌||◌};
ghost use Rattle.lq_base.specs.Name.{is_named};
ghost use Rattle.lq_model.specs.Kinds.{is_number};
ghost use Rattle.lq_model.specs.Catalogue.{same_names, key_list};
ghost use Rattle.lq_model.specs.Sound.{is_key_name, is_key_of, primary};
ghost use Rattle.lq_sound_table.specs.Pieces.{null_names, numbers_well};

use lq_base::{Dialect, Items, Kind, Name, NoMemory};
use lq_model::{Column, Key};
use lq_shapes::Names;
use std::alloc::Global;

/// Adds the names of the columns that may be null.
fn push_null<'a>(to: &mut Items<&'a Name>, columns: &'a [Column]) -> Result<(), NoMemory>
    ensures { OnOk result (map
        (λ n. n.now) to.new ≡ map (λ n. n.now) to.old ++ null_names columns.now) }
{
    let mut rest = columns;
    while let [column, after @ ..] = rest {
        if column.nullable {
            to.push(&column.name)?;
        }
        rest = after;
    }
    Ok(())
}

fn null_names<'a>(alloc: Global, columns: &'a [Column]) -> Result<Names<'a>, NoMemory>
    ensures { IfOk result (λ names. names ≡ null_names columns.now) }
{
    let mut names = Items::new(alloc);
    push_null(&mut names, columns)?;
    Names::new(alloc, names)
}

fn is_not_null(columns: &[Column], null: &Names<'_>, name: &Name) -> bool
    requires { null.now ≡ null_names columns.now }
    ensures { result ≡ list_all
        (λ c. not (is_named name.now c.name) || not c.nullable) columns.now }
{
    !null.has(name)
}

fn are_not_null(columns: &[Column], null: &Names<'_>, names: &[Name]) -> bool
    requires { null.now ≡ null_names columns.now }
    ensures { result ≡ list_all
        (λ n. list_all (λ c. not (is_named n c.name) || not c.nullable) columns.now) names.now }
{
    names.iter().all(|name| is_not_null(columns, null, name))
}

/// Whether the columns of the key are NOT NULL: by a set of those that are not, in O(n log n).
pub fn key_is_not_null(
    alloc: Global,
    columns: &[Column],
    key: Option<&Key>,
) -> Result<bool, NoMemory>
    ensures { IfOk result
        (λ fits. fits ≡ list_all (λ k. list_all (λ n. list_all (λ c. not (is_named n c.name)
        || not c.nullable) columns.now) k.columns) (key_list (option_copied key.entry))) }
{
    match key {
        None => Ok(true),
        Some(key) => {
            let null = null_names(alloc, columns)?;
            Ok(are_not_null(columns, &null, key.columns.as_slice()))
        }
    }
}

fn is_primary(name: &Name) -> bool
    ensures { result ≡ is_named name.now primary }
{
    name.as_key() == "PRIMARY"
}

fn is_key_name(dialect: Dialect, name: &Name) -> bool
    ensures { result ≡ is_key_name dialect name.now }
{
    match dialect {
        Dialect::Postgresql => true,
        Dialect::Mysql => is_primary(name),
    }
}

/// Whether the key is named as the dialect names keys.
pub fn key_is_named(dialect: Dialect, key: Option<&Key>) -> bool
    ensures { result ≡ list_all
        (λ k. is_key_name dialect k.name) (key_list (option_copied key.entry)) }
{
    match key {
        None => true,
        Some(key) => is_key_name(dialect, &key.name),
    }
}

fn is_number(kind: Kind) -> bool
    ensures { result ≡ is_number kind }
{
    match kind {
        Kind::Int => true,
        Kind::BigInt => true,
        _ => false,
    }
}

fn are_none(names: &[Name]) -> bool
    ensures { result ≡ same_names names.now [] }
{
    match names {
        [] => true,
        [_first, _rest @ ..] => false,
    }
}

fn is_only(names: &[Name], name: &Name) -> bool
    ensures { result ≡ same_names names.now (name.now ∷ []) }
{
    match names {
        [] => false,
        [first, rest @ ..] => *first == *name && are_none(rest),
    }
}

fn is_key_of(key: Option<&Key>, name: &Name) -> bool
    ensures { result ≡ is_key_of (option_copied key.entry) name.now }
{
    match key {
        None => false,
        Some(key) => is_only(key.columns.as_slice(), name),
    }
}

fn numbers_well(key: Option<&Key>, column: &Column) -> bool
    ensures { result ≡ numbers_well (option_copied key.entry) column.now }
{
    !column.numbered
        || (is_number(column.kind) && (column.default.is_none() && is_key_of(key, &column.name)))
}

/// Whether each numbered column is of a number's kind, has no default and is the key.
pub fn are_numbered_well(key: Option<&Key>, columns: &[Column]) -> bool
    ensures { result ≡ list_all (numbers_well (option_copied key.entry)) columns.now }
{
    columns.iter().all(|column| numbers_well(key, column))
}
