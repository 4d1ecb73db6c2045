//! A small number of each row, by which the rows that begin with a text are looked for.
ghost use Rattle.std.specs.List.{filter_map, remove};
ghost use Rattle.std.specs.Prelude.{◌≡◌, ◌++◌, ◌<◌, ◌∷◌, List, IfOk, IfSome, [], length, map, slice_get, slice_set};
ghost use Rattle.lq_base.specs.declared.value.Value.{Value as Held};
ghost use Rattle.lq_rows.specs.Stored.{ArePlaces, ArePrints, IsFront, fingerprint, places_from, text_print, value_print, with_digit};

use crate::held::Row;
use lq_base::{Items, NoMemory, Value};
use lq_chain::Chain;
use std::alloc::Global;

/// So many rows are found one by one: the way to each begins at the nearest end.
const FEW: usize = 32;

fn with_digit(number: u32, byte: u8) -> u32
    ensures { result ≡ with_digit number byte }
{
    ((number as u64 * 31 + byte as u64) % (1 << 32)) as u32
}

fn text_print(text: &str) -> u32
    ensures { result ≡ text_print text.now }
{
    let mut number = 0;
    for byte in text.as_bytes() {
        number = with_digit(number, *byte);
    }
    number
}

fn value_print(value: &Value) -> u32
    ensures { result ≡ value_print value.now }
{
    match value {
        Value::Text(text) => text_print(text.as_str()),
        _ => 0,
    }
}

fn fingerprint(row: &[Value]) -> u32
    ensures { result ≡ fingerprint row.now }
{
    match row.split_first() {
        Some((first, _)) => value_print(first),
        None => 0,
    }
}

/// The fingerprints of rows.
fn print_all(alloc: Global, rows: &Chain<Row>) -> Result<Items<u32>, NoMemory>
    ensures { IfOk result (λ prints. prints ≡ map fingerprint rows.now.now) }
{
    let mut prints = Items::new(alloc);
    for row in rows.iter() {
        prints.push(fingerprint(row.as_slice()))?;
    }
    Ok(prints)
}

/// Other rows came. Where memory is wanting, nothing is known of them.
pub fn renew(alloc: Global, prints: &mut Option<Items<u32>>, rows: &Chain<Row>)
    ensures { ArePrints rows.now.now prints.new }
{
    match print_all(alloc, rows) {
        Ok(known) => *prints = Some(known),
        Err(NoMemory) => *prints = None,
    }
}

/// A row came to the end.
pub fn add(prints: &mut Option<Items<u32>>, row: &[Value])
    ensures { (rows : List (List Held))
        → ArePrints rows prints.old
        → ArePrints (rows ++ row.now ∷ []) prints.new }
{
    let print = fingerprint(row);
    let is_known = match prints {
        None => true,
        Some(known) => known.push(print).is_ok(),
    };
    if !is_known {
        *prints = None;
    }
}

/// The row at the place went.
pub fn remove(prints: &mut Option<Items<u32>>, at: usize)
    ensures { (rows : List (List Held))
        → at < length rows
        → ArePrints rows prints.old
        → ArePrints (remove rows at) prints.new }
{
    match prints {
        Some(known) if at < known.len() => {
            known.remove(at);
        }
        _ => *prints = None,
    }
}

/// Another row came to the place.
pub fn set(prints: &mut Option<Items<u32>>, at: usize, row: &[Value])
    ensures { (rows : List (List Held))
        → at < length rows
        → ArePrints rows prints.old
        → ArePrints (slice_set rows at row.now) prints.new }
{
    match prints {
        Some(known) if at < known.len() => known.set(at, fingerprint(row)),
        _ => *prints = None,
    }
}

/// The places of those that are this one.
fn places_of(alloc: Global, prints: &[u32], print: u32) -> Result<Vec<usize>, NoMemory>
    ensures { IfOk result (λ places. places.items ≡ places_from 0 print prints.now) }
{
    let mut places = Vec::new(alloc);
    for (at, one) in prints.iter().enumerate() {
        if *one == print {
            places.push(at)?;
        }
    }
    Ok(places)
}

/// Places among which each row that begins with the text stands, by what is known or gets known.
pub fn places(
    alloc: Global,
    prints: &mut Option<Items<u32>>,
    rows: &Chain<Row>,
    text: &str,
) -> Result<Vec<usize>, NoMemory>
    requires { ArePrints rows.now.now prints.old }
    ensures places { IfOk result (λ places. ArePlaces text.now rows.now.now places.items) }
    ensures kept { ArePrints rows.now.now prints.new }
{
    let print = text_print(text);
    if let Some(known) = prints {
        return places_of(alloc, known.as_slice(), print);
    }
    let known = print_all(alloc, rows)?;
    let places = places_of(alloc, known.as_slice(), print)?;
    *prints = Some(known);
    Ok(places)
}

/// The rows at the places.
fn rows_at<'a>(
    alloc: Global,
    rows: &'a Chain<Row>,
    places: &[usize],
) -> Result<Vec<&'a Row>, NoMemory>
    ensures { IfOk result (λ found.
        map (λ row. row.now) found.items ≡ filter_map (slice_get rows.now.now) places.now) }
{
    let mut found = Vec::new(alloc);
    for at in places {
        if let Some(row) = rows.get(*at) {
            found.push(row)?;
        }
    }
    Ok(found)
}

/// The rows that are the front for a text, where they are known and few.
pub fn front<'a>(
    alloc: Global,
    prints: &Option<Items<u32>>,
    rows: &'a Chain<Row>,
    text: &str,
) -> Result<Option<Vec<&'a Row>>, NoMemory>
    requires { ArePrints rows.now.now prints.now }
    ensures { IfOk result (λ front. IfSome front (λ some.
        IsFront text.now rows.now.now (map (λ row. row.now) some.items))) }
{
    let Some(known) = prints else {
        return Ok(None);
    };
    let places = places_of(alloc, known.as_slice(), text_print(text))?;
    if places.len() > FEW {
        return Ok(None);
    }
    let some = rows_at(alloc, rows, places.as_slice())?;
    Ok(Some(some))
}
