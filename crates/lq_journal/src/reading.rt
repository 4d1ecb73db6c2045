ghost use Rattle.std.specs.Prelude.{◌≡◌, ◌+◌, ◌≤◌, ◌<◌, ◌^◌, ◌∷◌, ◌++◌, length, take, IfOk, IfErr, IsNone, MatchOption, OnOk, Some, None, Ok, true, false};
ghost use Rattle.std.specs.Option.{ForSome};
ghost use Rattle.std.specs.Str.{is_utf8};
ghost use Rattle.lq_frames.specs.Body.{front_number, with_text, texts_from, if_any, is_state, as_body, entry_len, header};
ghost use Rattle.lq_journal.specs.Reading.{IsNext, IsStepFault, IsFound, IsReadFault, taken_up};
ghost use Rattle.lq_gate.specs.Gate.{IsEnd};

use crate::fault::LoadFault;
use lq_base::{Dialect, Items, NoMemory, Text};
use lq_frames::{Body, Entry};
use lq_gate::behind_gate;
use std::alloc::Global;

/// What stands in a file.
#[derive(Drop)]
pub struct Found {
    /// From the last state on.
    pub entries: Items<Entry>,
    /// The place after the closed gate that ends the journal.
    pub used: u64,
    /// There is a header and a gate.
    pub prepared: bool,
}

pub fn header(dialect: Dialect) -> &'static [u8]
    ensures { result.now ≡ header dialect }
{
    match dialect {
        Dialect::Postgresql => b"LQJOURNAL1 PGSQL",
        Dialect::Mysql => b"LQJOURNAL1 MYSQL",
    }
}

// The length that stands at the front.
#[tactic(auto, unfolding(lq_frames::specs::Body::front_number))]
fn front_number(bytes: &[u8]) -> Option<usize>
    ensures { MatchOption result (length bytes.now < 4)
        (λ n. (n ≡ front_number bytes.now) × (n < 2 ^ 32) × (4 ≤ length bytes.now)) }
{
    match bytes {
        [a, b, c, d, ..] => Some(u32::from_be_bytes([*a, *b, *c, *d]) as usize),
        _ => None,
    }
}

// The bytes of the text at the front, and what stands after it.
#[tactic(auto, using(lq_frames::proofs::Texts::texts_short, crate::proofs::Read::text_far, crate::proofs::Read::text_there))]
fn next_text(bytes: &[u8]) -> Option<(&[u8], &[u8])>
    requires { 0 < length bytes.now }
    ensures { MatchOption result (texts_from 0 bytes.now ≡ None) (λ next.
        (texts_from 0 bytes.now ≡ with_text next.0.now (texts_from 0 next.1.now))
        × (length next.1.now < length bytes.now)) }
{
    let Some(len) = front_number(bytes) else {
        return None;
    };
    let rest = &bytes[4..];
    if len > rest.len() {
        return None;
    }
    Some(rest.split_at(len))
}

// The bytes as a text, where they are UTF-8.
#[tactic(auto, using(crate::proofs::Read::utf8_not, crate::proofs::Read::utf8_is))]
fn read_text(alloc: Global, bytes: &[u8]) -> Result<Option<Text>, NoMemory>
    ensures { IfOk result (λ text.
        MatchOption text (is_utf8 bytes.now ≡ false)
        (λ text. (text ≡ bytes.now) × (is_utf8 bytes.now ≡ true))) }
{
    match str::from_utf8(bytes) {
        Ok(text) => match Text::new(alloc, text) {
            Ok(text) => Ok(Some(text)),
            Err(fault) => Err(fault),
        },
        Err(_) => Ok(None),
    }
}

// The texts that fill the bytes, each behind its length.
#[tactic(auto, using(crate::proofs::Read::read_start, crate::proofs::Read::read_more, crate::proofs::Read::read_none, crate::proofs::Read::read_bad, crate::proofs::Read::read_all))]
fn read_texts(alloc: Global, bytes: &[u8]) -> Result<Option<Items<Text>>, NoMemory>
    ensures { IfOk result (λ texts. texts ≡ texts_from 0 bytes.now) }
{
    let mut texts = Items::new(alloc);
    let mut rest = bytes;
    while !rest.is_empty() {
        let Some((text, after)) = next_text(rest) else {
            return Ok(None);
        };
        let Some(text) = read_text(alloc, text)? else {
            return Ok(None);
        };
        texts.push(text)?;
        rest = after;
    }
    Ok(Some(texts))
}

fn if_any(texts: Option<Items<Text>>) -> Option<Body>
    ensures { result ≡ if_any texts }
{
    match texts {
        Some(texts) => {
            if texts.is_empty() {
                None
            } else {
                Some(Body::Texts(texts))
            }
        }
        None => None,
    }
}

// What a body says, where its form is right.
#[tactic(auto, unfolding(lq_frames::specs::Body::as_body))]
fn read_body(alloc: Global, body: &[u8]) -> Result<Option<Body>, NoMemory>
    ensures { IfOk result (λ what. what ≡ as_body body.now) }
{
    match body {
        [b'T', rest @ ..] => match read_texts(alloc, rest) {
            Ok(texts) => Ok(if_any(texts)),
            Err(fault) => Err(fault),
        },
        [b'S', state @ ..] => match Items::from_slice(alloc, state) {
            Ok(state) => Ok(Some(Body::State(state))),
            Err(_) => Err(NoMemory),
        },
        _ => Ok(None),
    }
}

// The entry at the front, by its length alone, and what stands after it.
fn front_entry(bytes: &[u8]) -> Option<(&[u8], &[u8])>
    ensures { MatchOption result (length bytes.now ≤ entry_len bytes.now) (λ parts.
        (bytes.now ≡ parts.0.now ++ parts.1.now)
        × (length parts.0.now ≡ entry_len bytes.now)
        × (0 < length parts.1.now)) }
{
    let Some(len) = front_number(bytes) else {
        return None;
    };
    if 4 + len < bytes.len() {
        Some(bytes.split_at(4 + len))
    } else {
        None
    }
}

// The entry behind an open gate and what stands after it, or none behind a closed one. The gate
// stands at a place of the file.
#[tactic(auto, using(crate::proofs::Entries::no_entry, crate::proofs::Entries::no_body))]
fn next_entry(alloc: Global, at: u64, bytes: &[u8]) -> Result<Option<(Entry, &[u8])>, LoadFault>
    requires some { 0 < length bytes.now }
    requires place { at + 1 < 2 ^ 64 }
    ensures entry { IfOk result
        (λ next. ForSome next (λ parts. IsNext at bytes.now parts.0 parts.1.now)) }
    ensures end { IfOk result (λ next. IsNone next → IsEnd bytes.now) }
    ensures fault { IfErr result (λ fault. IsStepFault at bytes.now fault) }
{
    let Some(behind) = behind_gate(bytes) else {
        return Ok(None);
    };
    let Some((entry, after)) = front_entry(behind) else {
        return Err(LoadFault::Damaged { at: at + 1 });
    };
    match read_body(alloc, &entry[4..]) {
        Ok(Some(body)) => Ok(Some((Entry { at: at + 1, body }, after))),
        Ok(None) => Err(LoadFault::Damaged { at: at + 1 }),
        Err(_) => Err(LoadFault::OutOfMemory),
    }
}

fn is_state(body: &Body) -> bool
    ensures { result ≡ is_state body.now }
{
    matches!(body, Body::State(_))
}

// Takes up an entry: before a state nothing counts.
fn take_up(alloc: Global, entries: &mut Items<Entry>, entry: Entry) -> Result<(), NoMemory>
    ensures { OnOk result (entries.new ≡ taken_up entry entries.old) }
{
    if is_state(&entry.body) {
        *entries = Items::new(alloc);
        entries.push(entry)?;
        Ok(())
    } else {
        entries.push(entry)?;
        Ok(())
    }
}

// The entries of a file that is long enough to have one, and has the header.
#[tactic(auto, using(crate::proofs::Entries::begins_read))]
fn read_entries(
    alloc: Global,
    dialect: Dialect,
    limit: u64,
    bytes: &[u8],
) -> Result<Found, LoadFault>
    requires long { 17 < length bytes.now }
    requires within { length bytes.now ≤ limit }
    requires header { take 16 bytes.now ≡ header dialect }
    ensures found { IfOk result (λ found. IsFound dialect limit bytes.now found) }
    ensures fault { IfErr result (λ fault. IsReadFault dialect limit bytes.now fault) }
{
    let mut entries = Items::new(alloc);
    let mut rest = &bytes[16..];
    let mut at = 16;
    loop {
        match next_entry(alloc, at, rest) {
            Ok(Some((entry, after))) => {
                take_up(alloc, &mut entries, entry)?;
                at += (rest.len() - after.len()) as u64;
                rest = after;
            }
            Ok(None) => break,
            Err(fault) => return Err(fault),
        }
    }
    Ok(Found {
        entries,
        used: at + 1,
        prepared: true,
    })
}

/// What stands in the bytes of a file.
#[tactic(auto, using(crate::proofs::Entries::short_read, crate::proofs::Entries::unheaded))]
pub fn read(alloc: Global, dialect: Dialect, limit: u64, bytes: &[u8]) -> Result<Found, LoadFault>
    requires { length bytes.now ≤ limit }
    ensures found { IfOk result (λ found. IsFound dialect limit bytes.now found) }
    ensures fault { IfErr result (λ fault. IsReadFault dialect limit bytes.now fault) }
{
    if bytes.len() <= 17 {
        return Ok(Found {
            entries: Items::new(alloc),
            used: 17,
            prepared: false,
        });
    }
    if &bytes[..16] != header(dialect) {
        return Err(LoadFault::Damaged { at: 0 });
    }
    read_entries(alloc, dialect, limit, bytes)
}
