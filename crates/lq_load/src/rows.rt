//! Records as names and as texts.
ghost use Rattle.std.specs.List.{list_all};
ghost use Rattle.std.specs.Prelude.{◌≡◌, IfOk, MatchOption, false, map, true};
ghost use Rattle.std.specs.Str.{is_utf8};
ghost use Rattle.csv.specs.Records.{fields_of};
ghost use Rattle.lq_tree.specs.Given.{if_so};
ghost use Rattle.lq_tree.specs.Items.{are_some};
ghost use Rattle.lq_load.specs.Rows.{is_column, is_row};

use csv::ByteRecord;
use lq_base::{Items, Name, NameFault, NoMemory, Text};
use std::alloc::Global;

fn as_text(bytes: &[u8]) -> Option<&str>
    ensures { MatchOption result (is_utf8 bytes.now ≡ false)
        (λ text. (text.now ≡ bytes.now) × (is_utf8 bytes.now ≡ true)) }
{
    match str::from_utf8(bytes) {
        Ok(text) => Some(text),
        Err(_) => None,
    }
}

/// The name of a column, where the bytes are one.
fn column_of(alloc: Global, bytes: &[u8]) -> Result<Option<Name>, NoMemory>
    ensures { IfOk result (λ found. found ≡ if_so is_column bytes.now) }
{
    let Some(text) = as_text(bytes) else {
        return Ok(None);
    };
    match Name::new(alloc, text) {
        Ok(name) => Ok(Some(name)),
        Err(NameFault::BadName) => Ok(None),
        Err(NameFault::OutOfMemory) => Err(NoMemory),
    }
}

/// The names of a heading, where it has one at least and each field is one.
pub fn columns_of(alloc: Global, heading: &ByteRecord) -> Result<Option<Items<Name>>, NoMemory>
    ensures { IfOk result (λ found. found ≡ if_so (are_some is_column) (fields_of heading.now)) }
{
    if heading.is_empty() {
        return Ok(None);
    }
    let mut columns = Items::new(alloc);
    for field in heading {
        match column_of(alloc, field)? {
            Some(column) => columns.push(column)?,
            None => return Ok(None),
        }
    }
    Ok(Some(columns))
}

/// The text of a field, where the bytes are one.
fn text_of(alloc: Global, bytes: &[u8]) -> Result<Option<Text>, NoMemory>
    ensures { IfOk result (λ found. found ≡ if_so is_utf8 bytes.now) }
{
    match as_text(bytes) {
        Some(text) => Ok(Some(Text::new(alloc, text)?)),
        None => Ok(None),
    }
}

/// The texts of a record, where each field is one.
fn texts_of(alloc: Global, fields: &ByteRecord) -> Result<Option<Items<Text>>, NoMemory>
    ensures { IfOk result (λ found. found ≡ if_so (list_all is_utf8) (fields_of fields.now)) }
{
    let mut texts = Items::new(alloc);
    for field in fields {
        match text_of(alloc, field)? {
            Some(text) => texts.push(text)?,
            None => return Ok(None),
        }
    }
    Ok(Some(texts))
}

/// A record as a row, where it has as many fields as there are columns.
fn row_of(alloc: Global, fields: &ByteRecord, width: usize) -> Result<Option<Items<Text>>, NoMemory>
    ensures { IfOk result (λ found. found ≡ if_so (is_row width) (fields_of fields.now)) }
{
    if fields.len() != width {
        return Ok(None);
    }
    texts_of(alloc, fields)
}

/// The records as rows, where each is one.
pub fn rows_of(
    alloc: Global,
    records: &[ByteRecord],
    width: usize,
) -> Result<Option<Items<Items<Text>>>, NoMemory>
    ensures { IfOk result
        (λ found. found ≡ if_so (list_all (is_row width)) (map fields_of records.now)) }
{
    let mut rows = Items::new(alloc);
    for fields in records {
        match row_of(alloc, fields, width)? {
            Some(row) => rows.push(row)?,
            None => return Ok(None),
        }
    }
    Ok(Some(rows))
}
