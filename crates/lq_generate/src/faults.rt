ghost use Rattle.std.specs.List.{find, list_any};
ghost use Rattle.std.specs.Option.{option_copied, option_map, option_or};
ghost use Rattle.std.specs.Prelude.{not, ◌≡◌, ◌||◌, IfOk};
ghost use Rattle.lq_base.specs.Name.{is_elsewhere};
ghost use Rattle.lq_generate.specs.Faults.{added_fault, created_fault, first_fault, first_of, first_sequence, first_view, foreign_fault, foreign_faults, is_long, is_lost, is_out, is_unwritten, first_table, key_fault, listed_fault, may_be_listed, own_key_fault, place_text, shown, place_in, table_in, tables_in, with_tables};
ghost use Rattle.lq_tree.specs.Given.{is_comma, without_blanks};
ghost use Rattle.std.specs.Str.{bytes_eq};

use crate::sets::is_numbered;
use lq_base::{Name, NoMemory, Text, Value};
use lq_model::{Column, ForeignKey, Key, Unique};
use lq_parts::{Parts, Sequence, View};
use lq_rows::Held;
use lq_tree::without_blanks;
use std::alloc::Global;

/// An object, and the column of it that cannot be written, if it is one.
pub type Place<'a> = (&'a Name, Option<&'a Name>);

fn is_long(number: i128) -> bool
    ensures { result ≡ is_long number }
{
    number >= -9_223_372_036_854_775_808 && number < 9_223_372_036_854_775_808
}

fn is_out(sequence: &Sequence) -> bool
    ensures { result ≡ is_out sequence.now }
{
    !(is_long(sequence.start()) && is_long(sequence.step()))
}

fn find_out(sequences: &[(Name, Sequence)]) -> Option<&(Name, Sequence)>
    ensures { option_copied result
        ≡ find (λ entry. is_out entry.1 || is_elsewhere entry.0) sequences.now }
{
    sequences
        .iter()
        .find(|entry| is_out(&entry.1) || entry.0.is_elsewhere())
}

fn first_sequence(sequences: &[(Name, Sequence)]) -> Option<Place<'_>>
    ensures { option_map place_in result ≡ first_sequence sequences.now }
{
    match find_out(sequences) {
        Some(entry) => Some((&entry.0, None)),
        None => None,
    }
}

fn find_elsewhere(views: &[(Name, View)]) -> Option<&(Name, View)>
    ensures { option_copied result ≡ find (λ entry. is_elsewhere entry.0) views.now }
{
    views.iter().find(|entry| entry.0.is_elsewhere())
}

fn first_view(views: &[(Name, View)]) -> Option<Place<'_>>
    ensures { option_map place_in result ≡ first_view views.now }
{
    match find_elsewhere(views) {
        Some(entry) => Some((&entry.0, None)),
        None => None,
    }
}

fn is_unwritten(default: &Option<Value>) -> bool
    ensures { result ≡ is_unwritten default.now }
{
    let Some(value) = default else {
        return false;
    };
    match value {
        Value::Null => true,
        Value::Fixed { units: _, scale } => *scale >= 38,
        Value::Int(_) => false,
        Value::Text(_) => false,
        Value::Bool(_) => false,
        Value::Moment(_) => false,
    }
}

fn has_comma(name: &Name) -> bool
    ensures { result ≡ list_any is_comma name.now }
{
    name.as_key().as_bytes().iter().any(|byte| *byte == b',')
}

fn has_clean_ends(name: &Name) -> bool
    ensures { result ≡ bytes_eq (without_blanks name.now) name.now }
{
    without_blanks(name.as_key()) == name.as_key()
}

fn may_be_listed(name: &Name) -> bool
    ensures { result ≡ may_be_listed name.now }
{
    !has_comma(name) && has_clean_ends(name)
}

fn is_lost(column: &Column) -> bool
    ensures { result ≡ is_lost column.now }
{
    is_unwritten(&column.default) || (column.numbered && !may_be_listed(&column.name))
}

fn find_lost(columns: &[Column]) -> Option<&Column>
    ensures { option_copied result ≡ find is_lost columns.now }
{
    columns.iter().find(|column| is_lost(column))
}

fn created_fault<'a>(entry: &'a (Name, Held)) -> Option<Place<'a>>
    ensures { option_map place_in result ≡ created_fault (table_in entry.now) }
{
    match find_lost(entry.1.columns()) {
        Some(column) => Some((&entry.0, Some(&column.name))),
        None => None,
    }
}

fn find_unlisted(names: &[Name]) -> Option<&Name>
    ensures { option_copied result ≡ find (λ name. not (may_be_listed name)) names.now }
{
    names.iter().find(|name| !may_be_listed(name))
}

fn listed_fault<'a>(table: &'a Name, names: &'a [Name]) -> Option<Place<'a>>
    ensures { option_map place_in result ≡ listed_fault table.now names.now }
{
    match find_unlisted(names) {
        Some(name) => Some((table, Some(name))),
        None => None,
    }
}

fn key_fault<'a>(table: &'a Name, key: Option<&'a Key>) -> Option<Place<'a>>
    ensures { option_map place_in result ≡ key_fault table.now (option_copied key.entry) }
{
    match key {
        Some(key) => listed_fault(table, key.columns.as_slice()),
        None => None,
    }
}

fn own_key_fault<'a>(entry: &'a (Name, Held)) -> Option<Place<'a>>
    ensures { option_map place_in result ≡ own_key_fault (table_in entry.now) }
{
    if is_numbered(entry.1.columns()) {
        return None;
    }
    key_fault(&entry.0, entry.1.key())
}

fn unique_fault<'a>(table: &'a Name, uniques: &'a [Unique]) -> Option<Place<'a>>
    ensures { option_map place_in result
        ≡ first_of (λ u. listed_fault table.now u.columns) uniques.now }
{
    for unique in uniques {
        if let Some(place) = listed_fault(table, unique.columns.as_slice()) {
            return Some(place);
        }
    }
    None
}

fn added_fault<'a>(entry: &'a (Name, Held)) -> Option<Place<'a>>
    ensures { option_map place_in result ≡ added_fault (table_in entry.now) }
{
    if let Some(place) = own_key_fault(entry) {
        return Some(place);
    }
    unique_fault(&entry.0, entry.1.uniques())
}

fn foreign_fault<'a>(table: &'a Name, key: &'a ForeignKey) -> Option<Place<'a>>
    ensures { option_map place_in result ≡ foreign_fault table.now key.now }
{
    if let Some(place) = listed_fault(table, key.columns.as_slice()) {
        return Some(place);
    }
    listed_fault(&key.table, key.targets.as_slice())
}

fn first_key<'a>(table: &'a Name, keys: &'a [ForeignKey]) -> Option<Place<'a>>
    ensures { option_map place_in result ≡ first_of (foreign_fault table.now) keys.now }
{
    for key in keys {
        if let Some(place) = foreign_fault(table, key) {
            return Some(place);
        }
    }
    None
}

fn foreign_faults<'a>(entry: &'a (Name, Held)) -> Option<Place<'a>>
    ensures { option_map place_in result ≡ foreign_faults (table_in entry.now) }
{
    first_key(&entry.0, entry.1.foreign_keys())
}

fn first_created<'a>(tables: &[&'a (Name, Held)]) -> Option<Place<'a>>
    ensures { option_map place_in result ≡ first_of created_fault (tables_in tables.now) }
{
    for entry in tables {
        if let Some(place) = created_fault(entry) {
            return Some(place);
        }
    }
    None
}

fn first_added<'a>(tables: &[&'a (Name, Held)]) -> Option<Place<'a>>
    ensures { option_map place_in result ≡ first_of added_fault (tables_in tables.now) }
{
    for entry in tables {
        if let Some(place) = added_fault(entry) {
            return Some(place);
        }
    }
    None
}

fn first_foreign<'a>(tables: &[&'a (Name, Held)]) -> Option<Place<'a>>
    ensures { option_map place_in result ≡ first_of foreign_faults (tables_in tables.now) }
{
    for entry in tables {
        if let Some(place) = foreign_faults(entry) {
            return Some(place);
        }
    }
    None
}

fn first_of_tables<'a>(tables: &[&'a (Name, Held)]) -> Option<Place<'a>>
    ensures { option_map place_in result ≡ first_table (tables_in tables.now) }
{
    if let Some(place) = first_created(tables) {
        return Some(place);
    }
    if let Some(place) = first_added(tables) {
        return Some(place);
    }
    first_foreign(tables)
}

/// What cannot be written, the first in the output's order.
pub fn first_fault<'a>(parts: &'a Parts, tables: &[&'a (Name, Held)]) -> Option<Place<'a>>
    ensures { option_map place_in result
        ≡ first_fault (with_tables parts.now.now (tables_in tables.now)) }
{
    if let Some(place) = first_sequence(parts.sequences()) {
        return Some(place);
    }
    if let Some(place) = first_of_tables(tables) {
        return Some(place);
    }
    first_view(parts.views())
}

/// The object's name, and outside `public` SCHEMA.NAME.
fn shown(alloc: Global, name: &Name) -> Result<Text, NoMemory>
    ensures { IfOk result (λ text. text ≡ shown name.now) }
{
    if !name.is_elsewhere() {
        return Text::new(alloc, name.as_key());
    }
    let mut text = Text::new(alloc, name.schema())?;
    text.push_all(&[".", name.text()])?;
    Ok(text)
}

/// How the place is told: the object's name, or TABLE.COLUMN.
pub fn place_text(alloc: Global, place: Place<'_>) -> Result<Text, NoMemory>
    ensures { IfOk result (λ text. text ≡ place_text (place_in place.entry)) }
{
    let mut text = shown(alloc, place.0)?;
    if let Some(column) = place.1 {
        text.push_all(&[".", column.as_key()])?;
    }
    Ok(text)
}
