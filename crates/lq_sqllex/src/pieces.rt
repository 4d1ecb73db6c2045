ghost use Rattle.std.specs.Prelude.{◌≡◌, ◌++◌, ◌+◌, ◌<◌, ◌≤◌, [], ◌∷◌, length, drop, Some, None, Err, IfOk, IfSome, OnOk};
ghost use Rattle.lq_sqllex.specs.Pieces.{is_delimited, together, kept, pieces};

use crate::fault::SplitFault;
use crate::length::length_at;
use crate::sort::sort_at;
use crate::trivia::is_trivia;
use lq_base::{Dialect, Items, NoMemory, Text};
use lq_marks::{begins, from, is_enclosed};
use std::alloc::Global;

fn is_delimited(dialect: Dialect, delimiter: &[u8], text: &[u8]) -> bool
    ensures { result ≡ is_delimited dialect delimiter.now text.now }
{
    begins(delimiter, text) && !is_enclosed(sort_at(dialect, text))
}

fn is_delimited_at(dialect: Dialect, delimiter: &str, text: &str, place: usize) -> bool
    ensures { result ≡ is_delimited dialect delimiter.now (drop place text.now) }
{
    is_delimited(dialect, delimiter.as_bytes(), from(text.as_bytes(), place))
}

// How many bytes at the front of a text stand together, where no delimiter is.
fn together(dialect: Dialect, text: &[u8]) -> Option<usize>
    requires { 0 < length text.now }
    ensures value { result ≡ together dialect text.now }
    ensures bound { IfSome result (λ n. n ≤ length text.now) }
    ensures some { IfSome result (λ n. 0 < n) }
{
    if is_enclosed(sort_at(dialect, text)) {
        length_at(dialect, text)
    } else {
        Some(1)
    }
}

fn together_at(dialect: Dialect, text: &str, place: usize) -> Option<usize>
    requires { place < length text.now }
    ensures value { result ≡ together dialect (drop place text.now) }
    ensures bound { IfSome result (λ n. place + n ≤ length text.now) }
    ensures some { IfSome result (λ n. 0 < n) }
{
    together(dialect, from(text.as_bytes(), place))
}

// Puts the piece behind those found, unless it is of blanks and comments alone.
fn keep(
    alloc: Global,
    dialect: Dialect,
    piece: &str,
    found: &mut Items<Text>,
) -> Result<(), NoMemory>
    ensures { OnOk result (found.new ≡ found.old ++ kept dialect (piece.now ∷ [])) }
{
    if !is_trivia(dialect, piece.as_bytes()) {
        found.push(Text::new(alloc, piece)?)?;
    }
    Ok(())
}

/// The pieces of a text, without those of blanks and comments alone (Liquibase's `splitStatements`
/// and `endDelimiter`). A piece ends at the delimiter where it stands outside strings, quoted names
/// and comments, or at the end of the text, and has all bytes up to there. At each place a string,
/// quoted name or comment is looked for before the delimiter, so one that begins as they do ends no
/// piece. It is compared byte for byte, also inside a word. `Unclosed` exactly where a string, quoted
/// name or comment is not closed.
pub fn split(
    alloc: Global,
    dialect: Dialect,
    text: &str,
    delimiter: &str,
) -> Result<Items<Text>, SplitFault>
    requires { 0 < length delimiter.now }
    ensures pieces { IfOk result (λ found. pieces dialect text.now delimiter.now ≡ Some found) }
    ensures unclosed { result ≡ Err SplitFault.Unclosed
        → pieces dialect text.now delimiter.now ≡ None }
{
    // A longer delimiter is compared whole only where so much of it stands.
    let front = &delimiter.as_bytes()[..delimiter.len().min(32)];
    let mut found = Items::new(alloc);
    let mut start = 0;
    let mut place = 0;
    // From the place up to `clear` no delimiter begins: once comparing it in vain has cost as much
    // as looking for the next one, that one is looked for.
    let mut clear = 0;
    let mut spent: usize = 0;
    while place < text.len() {
        if clear <= place && is_delimited(dialect, front, from(text.as_bytes(), place)) {
            if is_delimited_at(dialect, delimiter, text, place) {
                keep(alloc, dialect, &text[start..place], &mut found)?;
                place += delimiter.len();
                start = place;
            } else {
                let rest = text.get(place..).unwrap_or("");
                let both = rest.as_bytes().iter().zip(delimiter.as_bytes());
                spent = spent.saturating_add(both.take_while(|(one, other)| one == other).count());
                if spent > delimiter.len() {
                    clear = place + rest.find(delimiter).unwrap_or(rest.len());
                    spent = 0;
                }
                place += 1;
            }
        } else {
            let Some(count) = together_at(dialect, text, place) else {
                return Err(SplitFault::Unclosed);
            };
            place += count;
        }
    }
    keep(alloc, dialect, &text[start..], &mut found)?;
    Ok(found)
}
