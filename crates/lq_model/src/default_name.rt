ghost use Rattle.std.specs.Prelude.{◌≡◌, ◌++◌, take, codes, true, false, IfOk, MatchOption, string_bytes};
ghost use Rattle.std.specs.List.{flat_map};
ghost use Rattle.std.specs.Str.{is_utf8};
ghost use Rattle.lq_base.specs.Number.{has_control};
ghost use Rattle.lq_base.specs.Name.{IsName, text_of};
ghost use Rattle.lq_model.specs.Sound as spec;

use lq_base::{Dialect, Name, NameFault, NoMemory};
use std::alloc::{AllocError, Global};

fn as_text(bytes: &[u8]) -> Option<&str>
    ensures { MatchOption result (is_utf8 bytes.now ≡ false)
        (λ text. (text.now ≡ bytes.now) × (is_utf8 bytes.now ≡ true)) }
{
    match str::from_utf8(bytes) {
        Ok(text) => Some(text),
        Err(_) => None,
    }
}

fn front(bytes: &[u8], most: usize) -> &[u8]
    ensures { result.now ≡ take most bytes.now }
{
    bytes.get(..most).unwrap_or(bytes)
}

// The longest text of whole characters at the front, of at most so many bytes.
#[tactic(auto, using(crate::proofs::CutSteps::cut_step), unfolding(crate::specs::Sound::cut))]
fn cut(bytes: &[u8], most: usize) -> &str
    ensures { result.now ≡ spec.cut most bytes.now }
{
    if most == 0 {
        return "";
    }
    match as_text(front(bytes, most)) {
        Some(text) => text,
        None => cut(bytes, most - 1),
    }
}

// The name before it is cut.
fn full_name(
    alloc: Global,
    prefix: &str,
    table: &Name,
    columns: &[Name],
) -> Result<String, AllocError>
    requires { spec.is_prefix prefix.now ≡ true }
    ensures value { IfOk result (λ text.
        string_bytes text
        ≡ prefix.now
        ++ text_of table.now
        ++ flat_map (λ column. codes "_" ++ text_of column) columns.now) }
    ensures clean { IfOk result (λ text. has_control (string_bytes text) ≡ false) }
{
    let mut text = String::from_str(alloc, prefix)?;
    text.push_str(table.text())?;
    for column in columns {
        text.push_str("_")?;
        text.push_str(column.text())?;
    }
    Ok(text)
}

fn default_name(
    alloc: Global,
    prefix: &str,
    table: &Name,
    columns: &[Name],
) -> Result<Name, NoMemory>
    requires { spec.is_prefix prefix.now ≡ true }
    ensures value { IfOk result (λ name. name
        ≡ spec.default_name prefix.now table.now columns.now) }
    ensures name { IfOk result (λ name. IsName name) }
{
    let text = full_name(alloc, prefix, table, columns)?;
    match Name::new(alloc, cut(text.as_str().as_bytes(), 63)) {
        Ok(name) => Ok(name),
        Err(NameFault::OutOfMemory) => Err(NoMemory),
        Err(NameFault::BadName) => unreachable!(),
    }
}

/// The name of a primary key that is not named.
#[tactic(auto, unfolding(crate::specs::Sound::key_name))]
pub fn key_name(alloc: Global, dialect: Dialect, table: &Name) -> Result<Name, NoMemory>
    ensures value { IfOk result (λ name. name ≡ spec.key_name dialect table.now) }
    ensures name { IfOk result (λ name. IsName name) }
{
    match dialect {
        Dialect::Postgresql => default_name(alloc, "pk_", table, &[]),
        Dialect::Mysql => primary(alloc),
    }
}

fn primary(alloc: Global) -> Result<Name, NoMemory>
    ensures value { IfOk result (λ name. name ≡ codes "PRIMARY") }
    ensures name { IfOk result (λ name. IsName name) }
{
    match Name::new(alloc, "PRIMARY") {
        Ok(name) => Ok(name),
        Err(NameFault::OutOfMemory) => Err(NoMemory),
        Err(NameFault::BadName) => unreachable!(),
    }
}

/// The name of a unique constraint that is not named.
#[tactic(auto, unfolding(crate::specs::Sound::unique_name))]
pub fn unique_name(alloc: Global, table: &Name, columns: &[Name]) -> Result<Name, NoMemory>
    ensures value { IfOk result (λ name. name ≡ spec.unique_name table.now columns.now) }
    ensures name { IfOk result (λ name. IsName name) }
{
    default_name(alloc, "uq_", table, columns)
}

/// The name of an index that is not named.
#[tactic(auto, unfolding(crate::specs::Sound::index_name))]
pub fn index_name(alloc: Global, table: &Name, columns: &[Name]) -> Result<Name, NoMemory>
    ensures value { IfOk result (λ name. name ≡ spec.index_name table.now columns.now) }
    ensures name { IfOk result (λ name. IsName name) }
{
    default_name(alloc, "ix_", table, columns)
}

/// The name of a foreign key that is not named.
#[tactic(auto, unfolding(crate::specs::Sound::foreign_name))]
pub fn foreign_name(alloc: Global, table: &Name, columns: &[Name]) -> Result<Name, NoMemory>
    ensures value { IfOk result (λ name. name ≡ spec.foreign_name table.now columns.now) }
    ensures name { IfOk result (λ name. IsName name) }
{
    default_name(alloc, "fk_", table, columns)
}

/// A name by default is a name.
pub fn default_names_are_names()
    ensures { spec.DefaultNamesAreNames }
{}
