ghost use Rattle.std.specs.Prelude.{◌≡◌, ◌+◌, ◌<◌, ◌≤◌, ℕ, List, [], ◌∷◌, ◌++◌, length, take, drop, IfOk, OnOk, OnErr, vec_len, vec_capacity};
ghost use Rattle.lq_frames.specs.Body.{number, entry_of};
ghost use Rattle.lq_frames.specs.declared.entry.Body.TheVariants.{Texts};

use crate::written::Encoded;
use lq_base::{NoMemory, Text};
use std::alloc::Global;
use std::marker::Model;

/// An entry of texts that is ready to be written: its bytes, with the closed gate that is written
/// behind it. Contracts see it as its texts.
#[derive(Drop)]
pub struct EncodedEntry {
    bytes: Vec<u8>,
    /// The length of each text.
    lens: Vec<usize>,
}

impl Model for EncodedEntry {
    ghost use Rattle.std.specs.Prelude.{List, ℕ, drop};
    ghost use Rattle.lq_frames.specs.Body.{texts_by, IsEncoded};

    ghost Value = { List (List ℕ) };

    ghost view = { λ e. texts_by e.lens.items (drop 5 e.bytes.items) };

    ghost invariant = { λ e. IsEncoded (texts_by e.lens.items (drop 5 e.bytes.items)) e.lens.items e.bytes.items };
}

/// A length in four bytes, greatest first.
#[tactic(auto, unfolding(crate::specs::Body::number))]
pub fn number(n: usize) -> [u8; 4]
    ensures { result ≡ number n }
{
    let [_, _, _, _, a, b, c, d] = n.to_be_bytes();
    [a, b, c, d]
}

// Appends bytes for which there is room.
fn put(bytes: &mut Vec<u8>, more: &[u8])
    requires { vec_len bytes.old + length more.now ≤ vec_capacity bytes.old }
    ensures items { bytes.new.items ≡ bytes.old.items ++ more.now }
    ensures capacity { vec_capacity bytes.old ≤ vec_capacity bytes.new }
{
    let _fits = bytes.extend_from_slice(more);
}

// Writes over the bytes at a place.
fn overwrite(bytes: &mut Vec<u8>, at: usize, over: &[u8])
    requires { at + length over.now ≤ length bytes.old.items }
    ensures { bytes.new.items
        ≡ take at bytes.old.items ++ over.now ++ drop (at + length over.now) bytes.old.items }
{
    bytes[at..at + over.len()].copy_from_slice(over);
}

// Adds a text to the bytes of an entry, where there is room for it.
fn put_text(bytes: &mut Vec<u8>, text: &str)
    requires some { 5 < length bytes.old.items }
    requires room { vec_len bytes.old + (4 + length text.now) ≤ vec_capacity bytes.old }
    ensures { (texts : List (List ℕ))
        → bytes.old.items ≡ entry_of (Texts texts)
        → bytes.new.items ≡ entry_of (Texts (texts ++ text.now ∷ [])) }
{
    bytes.truncate(bytes.len() - 1);
    put(bytes, &number(text.len()));
    put(bytes, text.as_bytes());
    bytes.push_reserved(0);
    let len = number(bytes.len() - 5);
    overwrite(bytes, 0, &len);
}

impl EncodedEntry {
    /// The entry of one text.
    pub fn new(alloc: Global, text: &str) -> Result<EncodedEntry, NoMemory>
        ensures { IfOk result (λ entry. entry ≡ text.now ∷ []) }
    {
        let mut bytes = Vec::new(alloc);
        bytes.extend_from_slice(&number(5 + text.len()))?;
        bytes.push(b'T')?;
        bytes.extend_from_slice(&number(text.len()))?;
        bytes.extend_from_slice(text.as_bytes())?;
        bytes.push(0)?;
        let mut lens = Vec::new(alloc);
        lens.push(text.len())?;
        Ok(EncodedEntry { bytes, lens })
    }

    /// Adds a text at the end, or changes nothing where there is no memory.
    pub fn push(&mut self, text: &str) -> Result<(), NoMemory>
        ensures ok { OnOk result (self.new ≡ self.old ++ text.now ∷ []) }
        ensures err { OnErr result (self.new ≡ self.old) }
    {
        self.bytes.reserve(4 + text.len())?;
        self.lens.reserve(1)?;
        put_text(&mut self.bytes, text);
        self.lens.push_reserved(text.len());
        Ok(())
    }

    /// The entry of these texts.
    pub fn from_texts(alloc: Global, texts: &[Text]) -> Result<EncodedEntry, NoMemory>
        requires { 0 < length texts.now }
        ensures { IfOk result (λ entry. entry ≡ texts.now) }
    {
        let mut entry = EncodedEntry::new(alloc, texts[0].as_str())?;
        let mut rest = &texts[1..];
        while let [text, after @ ..] = rest {
            entry.push(text.as_str())?;
            rest = after;
        }
        Ok(entry)
    }
}

impl Encoded for EncodedEntry {
    ghost says = { λ texts. Texts texts };

    fn bytes(&self) -> &[u8] {
        &self.bytes
    }

    fn size(&self) -> u64 {
        self.bytes.len() as u64
    }
}
