ghost use Rattle.std.specs.List.{list_all, list_any};
ghost use Rattle.std.specs.Prelude.{◌≡◌, IfOk, map};
ghost use Rattle.lq_cond.specs.Kinds.{excludes, includes, is_excluding, is_meant, names_in, names_of};

use lq_base::{Dialect, Items, NoMemory, Text};
use lq_tree::{comma_parts, without_blanks};
use std::alloc::Global;

fn names_of(alloc: Global, parts: &[&str]) -> Result<Items<Text>, NoMemory>
    ensures { IfOk result (λ names. names ≡ names_of (map (λ part. part.now) parts.now)) }
{
    let mut names = Items::new(alloc);
    for part in parts {
        let name = without_blanks(part);
        if !name.is_empty() {
            names.push(Text::new(alloc, name)?)?;
        }
    }
    Ok(names)
}

/// The names of a text with commas between, without the blanks around them. Empty ones are passed
/// over.
pub fn dialect_names(alloc: Global, text: &str) -> Result<Items<Text>, NoMemory>
    ensures { IfOk result (λ names. names ≡ names_in text.now) }
{
    let parts = comma_parts(alloc, text)?;
    names_of(alloc, parts.as_slice())
}

fn is_excluding(name: &Text) -> bool
    ensures { result ≡ is_excluding name.now }
{
    match name.as_str().as_bytes() {
        [b'!', ..] => true,
        _ => false,
    }
}

fn excludes(dialect: Dialect, name: &Text) -> bool
    ensures { result ≡ excludes dialect name.now }
{
    match dialect {
        Dialect::Postgresql => name.as_str() == "!postgresql",
        Dialect::Mysql => name.as_str() == "!mysql",
    }
}

fn includes(dialect: Dialect, name: &Text) -> bool
    ensures { result ≡ includes dialect name.now }
{
    name.as_str() == dialect.text() || name.as_str() == "all"
}

fn is_excluded(dialect: Dialect, names: &[Text]) -> bool
    ensures { result ≡ list_any (excludes dialect) names.now }
{
    names.iter().any(|name| excludes(dialect, name))
}

fn is_included(dialect: Dialect, names: &[Text]) -> bool
    ensures { result ≡ list_any (includes dialect) names.now }
{
    names.iter().any(|name| includes(dialect, name))
}

fn all_exclude(names: &[Text]) -> bool
    ensures { result ≡ list_all is_excluding names.now }
{
    names.iter().all(|name| is_excluding(name))
}

/// Whether a list of dialects' names means the dialect: none excludes it and, where one includes some
/// dialect, one includes it (Liquibase's documentation, "dbms").
pub fn is_meant(dialect: Dialect, names: &[Text]) -> bool
    ensures { result ≡ is_meant dialect names.now }
{
    !is_excluded(dialect, names) && (all_exclude(names) || is_included(dialect, names))
}
