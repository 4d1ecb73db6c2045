ghost use Rattle.std.specs.List.{list_all, list_any};
ghost use Rattle.std.specs.Ordering.{int_eq};
ghost use Rattle.std.specs.Prelude.{◌≡◌, IfOk, pos};
ghost use Rattle.lq_model.specs.Plan as spec;
ghost use Rattle.lq_model.specs.Kinds.{kinds_differ};
ghost use Rattle.lq_model.specs.Sound.{may_have};
ghost use Rattle.lq_parts.specs.Steps.{tables_of};
ghost use Rattle.lq_soundly.specs.Pieces.{differs_from};
ghost use Rattle.lq_codec.specs.State.{is_sound_table};

use crate::foreign::{one_differs, one_misses};
use lq_base::{Dialect, Name, NoMemory};
use lq_model::{Column, ForeignKey};
use lq_parts::{Parts, Sequence};
use lq_rows::Held;
use lq_shapes::Columns;
use lq_sound_table::{has_null, has_twins, is_full, is_sound_table};
use std::alloc::Global;

pub fn are_sound_tables(
    alloc: Global,
    dialect: Dialect,
    entries: &[(Name, Held)],
) -> Result<bool, NoMemory>
    ensures { IfOk result
        (λ fits. fits ≡ list_all (λ e. is_sound_table dialect e.1) (tables_of entries.now)) }
{
    for entry in entries {
        if !is_sound_table(alloc, dialect, &entry.1)? {
            return Ok(false);
        }
    }
    Ok(true)
}

pub fn have_null(entries: &[(Name, Held)]) -> bool
    ensures { result ≡ list_any (λ e. spec.table_has_null e.1) (tables_of entries.now) }
{
    for entry in entries {
        if has_null(entry.1.columns(), entry.1.rows()) {
            return true;
        }
    }
    false
}

pub fn have_twins(alloc: Global, entries: &[(Name, Held)]) -> Result<bool, NoMemory>
    ensures { IfOk result
        (λ found. found ≡ list_any (λ e. spec.table_has_twins e.1) (tables_of entries.now)) }
{
    for entry in entries {
        if has_twins(alloc, &entry.1)? {
            return Ok(true);
        }
    }
    Ok(false)
}

pub fn are_overfull(entries: &[(Name, Held)]) -> bool
    ensures { result ≡ list_any (λ e. spec.is_full e.1) (tables_of entries.now) }
{
    for entry in entries {
        if is_full(&entry.1) {
            return true;
        }
    }
    false
}

pub fn are_loose(parts: &Parts, entries: &[(Name, Held)]) -> bool
    ensures { result ≡ list_any
        (λ e. list_any (spec.misses_target parts.now.now) e.1.foreign) (tables_of entries.now) }
{
    for entry in entries {
        if one_misses(parts, entry.1.foreign_keys()) {
            return true;
        }
    }
    false
}

fn unlike_in(
    alloc: Global,
    parts: &Parts,
    columns: &[Column],
    keys: &[ForeignKey],
) -> Result<bool, NoMemory>
    ensures { IfOk result
        (λ found. found ≡ list_any (differs_from parts.now.now columns.now) keys.now) }
{
    let own = Columns::new(alloc, columns)?;
    let found = one_differs(alloc, parts, &own, keys)?;
    Ok(found)
}

fn is_unlike_in(alloc: Global, parts: &Parts, held: &Held) -> Result<bool, NoMemory>
    ensures { IfOk result
        (λ found. found
        ≡ list_any (kinds_differ parts.now.now held.now.now) held.now.now.foreign) }
{
    unlike_in(alloc, parts, held.columns(), held.foreign_keys())
}

pub fn are_unlike(alloc: Global, parts: &Parts, entries: &[(Name, Held)]) -> Result<bool, NoMemory>
    ensures { IfOk result
        (λ found. found ≡ list_any (λ e. list_any (kinds_differ parts.now.now e.1) e.1.foreign)
        (tables_of entries.now)) }
{
    for entry in entries {
        if is_unlike_in(alloc, parts, &entry.1)? {
            return Ok(true);
        }
    }
    Ok(false)
}

pub fn one_stands_still(entries: &[(Name, Sequence)]) -> bool
    ensures { result ≡ list_any (λ e. int_eq e.1.step (pos 0)) entries.now }
{
    entries.iter().any(|entry| entry.1.step() == 0)
}

pub fn may_have(dialect: Dialect, entries: &[(Name, Sequence)]) -> bool
    ensures { result ≡ may_have dialect entries.now }
{
    match dialect {
        Dialect::Postgresql => true,
        Dialect::Mysql => match entries {
            [] => true,
            [_first, _rest @ ..] => false,
        },
    }
}
