//! What a table of a catalogue is found to be, and its rows.

ghost use Rattle.std.specs.Prelude.{◌≡◌, IfOk, IfSome};
ghost use Rattle.lq_model.specs.Catalogue.{table_of};
ghost use Rattle.lq_model.specs.Kinds.{equal_kinds};
ghost use Rattle.lq_track.specs.Database.{are_made, has_no_more, is_made, moment_in, text_in, passes};

use lq_base::{Duplicate, Items, Kind, Name, NoMemory, Text, Value};
use lq_model::{AskFault, By, Column, ColumnDef, Look, Query, Wanted};
use std::alloc::Global;

/// Whether the columns are as they are made.
pub fn are_made(defs: &[ColumnDef], columns: &[Column]) -> bool
    ensures { result ≡ are_made defs.now columns.now }
{
    let mut defs = defs;
    let mut columns = columns;
    while let Some((def, more)) = defs.split_first() {
        let Some((column, rest)) = columns.split_first() else {
            return false;
        };
        if !is_made(def, column) {
            return false;
        }
        defs = more;
        columns = rest;
    }
    columns.is_empty()
}

fn is_made(def: &ColumnDef, column: &Column) -> bool
    ensures { result ≡ is_made def.now column.now }
{
    let is_nullable = if def.nullable {
        column.nullable
    } else {
        !column.nullable
    };
    def.name == column.name
        && equal_kinds(def.kind, column.kind)
        && is_nullable
        && column.default.is_none()
        && !column.numbered
}

fn equal_kinds(a: Kind, b: Kind) -> bool
    ensures { result ≡ equal_kinds a b }
{
    match (a, b) {
        (Kind::Int, Kind::Int) => true,
        (Kind::BigInt, Kind::BigInt) => true,
        (Kind::Boolean, Kind::Boolean) => true,
        (Kind::Text, Kind::Text) => true,
        (Kind::Moment, Kind::Moment) => true,
        (Kind::Varchar(most), Kind::Varchar(other)) => most == other,
        (Kind::Decimal(digits, scale), Kind::Decimal(others, other)) => {
            digits == others && scale == other
        }
        _ => false,
    }
}

/// Whether the table is there, without a unique constraint, foreign key or index.
pub fn has_no_more<K: Look>(look: &K, table: &Name) -> bool
    ensures { result ≡ passes has_no_more (table_of (K.catalogue look.now) table.now) }
{
    match (
        look.uniques(table),
        look.foreign_keys(table),
        look.indexes(table),
    ) {
        (Some(uniques), Some(foreign), Some(indexes)) => {
            uniques.is_empty() && foreign.is_empty() && indexes.is_empty()
        }
        _ => false,
    }
}

/// All rows of a table that is there.
pub fn all_rows<K: Look>(
    alloc: Global,
    look: &K,
    table: Name,
) -> Result<Items<Items<Value>>, NoMemory>
    ensures { IfOk result
        (λ rows. IfSome (table_of (K.catalogue look.now) table) (λ it. rows ≡ it.rows)) }
{
    let query = Query {
        wanted: Wanted::All,
        table,
        test: None,
    };
    match look.ask(alloc, By::Program, &query) {
        Ok(answered) => Ok(answered.rows),
        Err(AskFault::Refused(_)) => Ok(Items::new(alloc)),
        Err(AskFault::OutOfMemory) => Err(NoMemory),
    }
}

/// A text, or null where there is none.
pub fn text_in(alloc: Global, value: &Value) -> Result<Option<Option<Text>>, NoMemory>
    ensures { IfOk result (λ text. text ≡ text_in value.now) }
{
    match value {
        Value::Null => Ok(Some(None)),
        Value::Text(text) => Ok(Some(Some(text.duplicate(alloc)?))),
        _ => Ok(None),
    }
}

/// A moment, or null where there is none.
pub fn moment_in(value: &Value) -> Option<Option<i64>>
    ensures { result ≡ moment_in value.now }
{
    match value {
        Value::Null => Some(None),
        Value::Moment(moment) => Some(Some(*moment)),
        _ => None,
    }
}
