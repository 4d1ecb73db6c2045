ghost use Rattle.std.specs.List.{list_any};
ghost use Rattle.std.specs.Prelude.{◌≡◌, ◌&&◌, ◌++◌, ◌||◌, ◌≤◌, ℕ, IfOk, List, OnOk, codes, false, length, map, string_bytes, true};
ghost use Rattle.std.specs.Str.{bytes_eq};
ghost use Rattle.lq_model.specs.Changes.{CanonicalChange, CanonicalPairs, CanonicalValue, atom, canonical, canonical_changes, canonical_each, canonical_pairs, map_of, numeral};
ghost use Rattle.lq_canon.specs.Sums.{has_sql_name, has_wide, is_replaced, is_sql_at, is_wide, uniform_pairs, uniform_value, uniformed};
ghost use Rattle.lq_uniform.specs.Uniform.{is_quote, is_space, uniform};

use crate::reading::{Pair, Part, change_at, pair_at, text_in, without_first};
use lq_base::NoMemory;
use lq_uniform::{append_uniform, is_quote, is_space};
use std::alloc::Global;

fn is(text: &[u8], word: &str) -> bool
    ensures { result ≡ bytes_eq text.now word.now }
{
    text == word.as_bytes()
}

fn has_blank_or_quote(text: &[u8]) -> bool
    ensures { result ≡ list_any (λ b. is_space b || is_quote b) text.now }
{
    text.iter().any(|b| is_space(*b) || is_quote(*b))
}

fn is_wide(pair: Pair) -> bool
    ensures { (v : CanonicalValue)
        → pair.entry.value.now ≡ canonical v
        → result ≡ is_wide pair.entry.key.now v }
{
    match text_in(pair.value) {
        Some(text) => is(pair.key, "endDelimiter") && has_blank_or_quote(text),
        None => false,
    }
}

// Whether one of the pairs up to the end of their map is a wide end delimiter.
fn has_wide(pairs: &[u8]) -> bool
    ensures { (ps : CanonicalPairs) (x : List ℕ)
        → pairs.now ≡ canonical_pairs ps ++ (codes "}" ++ x) → result ≡ has_wide ps }
{
    let mut rest = pairs;
    while let Some(pair) = pair_at(rest) {
        if is_wide(pair) {
            return true;
        }
        rest = pair.rest;
    }
    false
}

fn is_sql_at(name: &[u8], key: &[u8]) -> bool
    ensures { result ≡ is_sql_at name.now key.now }
{
    (is(name, "createView") && is(key, "selectQuery"))
        || ((is(name, "update") || is(name, "delete")) && is(key, "where"))
}

fn is_replaced(wide: bool, name: &[u8], key: &[u8]) -> bool
    ensures { result ≡ is_replaced wide name.now key.now }
{
    (is(name, "sql") && is(key, "sql") && !wide) || is_sql_at(name, key)
}

// What stands before the text in an atom.
fn head_of(alloc: Global, length: usize) -> Result<String, NoMemory>
    ensures { IfOk result (λ head. string_bytes head ≡ numeral length ++ codes ":") }
{
    Ok(format!(in alloc; "{length}:")?)
}

fn append_atom(to: &mut Vec<u8>, text: &[u8]) -> Result<(), NoMemory>
    ensures { OnOk result (to.new.items ≡ to.old.items ++ atom text.now) }
{
    let head = head_of(*to.allocator(), text.len())?;
    to.extend_from_slice(head.as_bytes())?;
    to.extend_from_slice(text)?;
    Ok(())
}

fn append_uniform_text(to: &mut Vec<u8>, text: &[u8]) -> Result<(), NoMemory>
    ensures { OnOk result (to.new.items
        ≡ to.old.items ++ (codes "t" ++ atom (uniform text.now))) }
{
    let mut short = Vec::new(*to.allocator());
    append_uniform(&mut short, text)?;
    to.push(b't')?;
    append_atom(to, short.as_slice())
}

fn append_value(to: &mut Vec<u8>, replaced: bool, value: &[u8]) -> Result<(), NoMemory>
    ensures { (v : CanonicalValue)
        → value.now ≡ canonical v
        → OnOk result (to.new.items ≡ to.old.items ++ canonical (uniform_value replaced v)) }
{
    match text_in(value) {
        Some(text) if replaced => append_uniform_text(to, text),
        _ => {
            to.extend_from_slice(value)?;
            Ok(())
        }
    }
}

fn append_pair(to: &mut Vec<u8>, replaced: bool, pair: Pair) -> Result<(), NoMemory>
    ensures { (v : CanonicalValue)
        → pair.entry.value.now ≡ canonical v
        → OnOk result
        (to.new.items
        ≡ to.old.items
        ++ (atom pair.entry.key.now ++ canonical (uniform_value replaced v))) }
{
    append_atom(to, pair.key)?;
    append_value(to, replaced, pair.value)
}

// The pairs up to the end of their map; answers what follows them.
fn append_pairs<'a>(
    to: &mut Vec<u8>,
    wide: bool,
    name: &[u8],
    pairs: &'a [u8],
) -> Result<&'a [u8], NoMemory>
    ensures written { (ps : CanonicalPairs) (x : List ℕ)
        → pairs.now
        ≡ canonical_pairs ps ++ (codes "}" ++ x) → OnOk result (to.new.items
        ≡ to.old.items ++ canonical_pairs (uniform_pairs wide name.now ps)) }
    ensures read { (ps : CanonicalPairs) (x : List ℕ)
        → pairs.now
        ≡ canonical_pairs ps
        ++ (codes "}"
        ++ x) → IfOk result (λ rest. rest.now ≡ codes "}" ++ x) }
    ensures shorter { IfOk result (λ rest. length rest.now ≤ length pairs.now) }
{
    let mut rest = pairs;
    while let Some(pair) = pair_at(rest) {
        append_pair(to, is_replaced(wide, name, pair.key), pair)?;
        rest = pair.rest;
    }
    Ok(rest)
}

// The change of which the name and what follows the beginning of its map are given; answers what
// follows the change.
fn append_change<'a>(to: &mut Vec<u8>, change: Part<'a>) -> Result<&'a [u8], NoMemory>
    ensures written { (ps : CanonicalPairs) (x : List ℕ)
        → change.entry.rest.now
        ≡ canonical_pairs ps ++ (codes "}" ++ x) → OnOk result (to.new.items
        ≡ to.old.items
        ++
        (atom change.entry.bytes.now
        ++ canonical
        (map_of (uniform_pairs (has_wide ps) change.entry.bytes.now ps)))) }
    ensures read { (ps : CanonicalPairs) (x : List ℕ)
        → change.entry.rest.now
        ≡ canonical_pairs ps ++ (codes "}" ++ x) → IfOk result (λ rest. rest.now ≡ x) }
    ensures shorter { IfOk result (λ rest. length rest.now ≤ length change.entry.rest.now) }
{
    append_atom(to, change.bytes)?;
    to.push(b'{')?;
    let rest = append_pairs(to, has_wide(change.rest), change.bytes, change.rest)?;
    to.push(b'}')?;
    Ok(without_first(rest))
}

fn append_each(to: &mut Vec<u8>, each: &[u8]) -> Result<(), NoMemory>
    ensures { (cs : List CanonicalChange) (x : List ℕ)
        → each.now
        ≡ canonical_each cs ++ (codes "]" ++ x) → OnOk result (to.new.items
        ≡ to.old.items ++ canonical_each (map uniformed cs)) }
{
    let mut rest = each;
    while let Some(change) = change_at(rest) {
        rest = append_change(to, change)?;
    }
    Ok(())
}

fn has_sql_name(name: &[u8]) -> bool
    ensures { result ≡ has_sql_name name.now }
{
    is(name, "sql") || (is(name, "createView") || (is(name, "update") || is(name, "delete")))
}

// What follows the pairs up to the end of their map.
fn behind_pairs(pairs: &[u8]) -> &[u8]
    ensures read { (ps : CanonicalPairs) (x : List ℕ)
        → pairs.now
        ≡ canonical_pairs ps ++ (codes "}" ++ x) → result.now ≡ codes "}" ++ x }
    ensures shorter { length result.now ≤ length pairs.now }
{
    let mut rest = pairs;
    while let Some(pair) = pair_at(rest) {
        rest = pair.rest;
    }
    rest
}

// Whether one of the changes has a name at which texts of SQL stand.
fn one_has_sql(each: &[u8]) -> bool
    ensures { (cs : List CanonicalChange) (x : List ℕ)
        → each.now
        ≡ canonical_each cs ++ (codes "]" ++ x) → result ≡ false → map uniformed cs ≡ cs }
{
    let mut rest = each;
    while let Some(change) = change_at(rest) {
        if has_sql_name(change.bytes) {
            return true;
        }
        rest = without_first(behind_pairs(change.rest));
    }
    false
}

/// Whether the changes have no text of SQL, so that their canonical text is uniform as it is.
pub fn is_uniform(text: &[u8]) -> bool
    ensures { (cs : List CanonicalChange)
        → text.now ≡ canonical_changes cs → result ≡ true → map uniformed cs ≡ cs }
{
    !one_has_sql(without_first(text))
}

/// The canonical text of the changes with their texts of SQL uniform.
pub fn rewritten(alloc: Global, text: &[u8]) -> Result<Vec<u8>, NoMemory>
    ensures { (cs : List CanonicalChange)
        → text.now ≡ canonical_changes cs
        → IfOk result (λ made. made.items ≡ canonical_changes (map uniformed cs)) }
{
    let mut made = Vec::new(alloc);
    made.push(b'[')?;
    append_each(&mut made, without_first(text))?;
    made.push(b']')?;
    Ok(made)
}
