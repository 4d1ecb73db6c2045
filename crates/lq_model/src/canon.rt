ghost use Rattle.std.specs.Prelude.{◌≡◌, ◌++◌, ◌∷◌, [], IfOk, OnOk, OnErr, Some, codes, length, string_bytes};
ghost use Rattle.lq_model.specs.Changes.{GoesOn, Writing, atom, canonical, decimal_value, innermost, kind_value, number, numeral, signed_numeral, text, truth, without_innermost};
ghost use Rattle.lq_model.specs.declared.canon.Begun.TheVariants as begun_of;

use lq_base::{Dialect, Kind, NoMemory, Text, append_fixed};
use std::alloc::Global;
use std::marker::Model;

/// What a writer of canonical text can have begun and not yet ended.
#[derive(Clone, Copy, PartialEq, Eq)]
pub enum Begun {
    List,
    Map,
}

/// A place in what a writer writes, to which it can go back.
#[derive(Clone, Copy)]
pub struct Mark {
    /// How many bytes were written.
    pub written: usize,
    /// How many lists and maps were begun and not ended.
    pub begun: usize,
}

/// The writer of canonical text, of which the checksum of a changeset is taken.
///
/// An atom is the decimal number of a text's bytes, `:`, and the text. A value is `t` and an atom for
/// a text, `n` and the atom of its digits for a number, `b0` or `b1`, `[` values `]`, or `{` pairs `}`;
/// a pair is the atom of its key and its value. A change is the atom of its type's name and a map, and a
/// changeset the list of its changes: `[9:dropTable{9:tableNamet1:t}]`.
///
/// Each call appends one part, or changes nothing where there is no memory.
#[derive(Drop)]
pub struct Canon {
    written: Vec<u8>,
    /// The last one begun stands last.
    begun: Vec<Begun>,
}

impl Model for Canon {
    ghost use Rattle.std.specs.Prelude.{reverse};
    ghost use Rattle.lq_model.specs.Changes.{Writing};

    ghost Value = { Writing };

    ghost view = { λ canon. record { written = canon.written.items; begun = reverse canon.begun.items } };
}

impl Canon {
    /// A writer that has written nothing.
    pub fn new(alloc: Global) -> Canon
        ensures written { result.written ≡ [] }
        ensures begun { result.begun ≡ [] }
    {
        Canon {
            written: Vec::new(alloc),
            begun: Vec::new(alloc),
        }
    }

    /// The bytes written so far.
    pub fn written(&self) -> &[u8]
        ensures { result.now ≡ self.now.written }
    {
        self.written.as_slice()
    }

    /// Where the writer stands.
    pub fn mark(&self) -> Mark
        ensures written { result.written ≡ length self.now.written }
        ensures begun { result.begun ≡ length self.now.begun }
    {
        Mark {
            written: self.written.len(),
            begun: self.begun.len(),
        }
    }

    /// Takes back what was written since `mark`.
    pub fn go_back(&mut self, mark: Mark)
        ensures { (before : Writing) → GoesOn before self.old
            → mark.written ≡ length before.written → mark.begun ≡ length before.begun
            → self.new ≡ before }
    {
        self.written.truncate(mark.written);
        self.begun.truncate(mark.begun);
    }

    pub fn begin_map(&mut self) -> Result<(), NoMemory>
        ensures written { OnOk result (self.new.written ≡ self.old.written ++ codes "{") }
        ensures begun { OnOk result (self.new.begun ≡ begun_of.Map ∷ self.old.begun) }
        ensures unchanged { OnErr result (self.new ≡ self.old) }
    {
        self.begin(Begun::Map, b'{')
    }

    pub fn end_map(&mut self) -> Result<(), NoMemory>
        requires { innermost self.old.begun ≡ Some begun_of.Map }
        ensures written { OnOk result (self.new.written ≡ self.old.written ++ codes "}") }
        ensures begun { OnOk result (self.new.begun ≡ without_innermost self.old.begun) }
        ensures unchanged { OnErr result (self.new ≡ self.old) }
    {
        self.end(b'}')
    }

    pub fn begin_list(&mut self) -> Result<(), NoMemory>
        ensures written { OnOk result (self.new.written ≡ self.old.written ++ codes "[") }
        ensures begun { OnOk result (self.new.begun ≡ begun_of.List ∷ self.old.begun) }
        ensures unchanged { OnErr result (self.new ≡ self.old) }
    {
        self.begin(Begun::List, b'[')
    }

    pub fn end_list(&mut self) -> Result<(), NoMemory>
        requires { innermost self.old.begun ≡ Some begun_of.List }
        ensures written { OnOk result (self.new.written ≡ self.old.written ++ codes "]") }
        ensures begun { OnOk result (self.new.begun ≡ without_innermost self.old.begun) }
        ensures unchanged { OnErr result (self.new ≡ self.old) }
    {
        self.end(b']')
    }

    /// A pair's key, or the name of a change's type.
    pub fn key(&mut self, k: &str) -> Result<(), NoMemory>
        ensures written { OnOk result (self.new.written ≡ self.old.written ++ atom k.now) }
        ensures begun { self.new.begun ≡ self.old.begun }
        ensures unchanged { OnErr result (self.new ≡ self.old) }
    {
        append_atom(&mut self.written, "", k)
    }

    pub fn text(&mut self, t: &str) -> Result<(), NoMemory>
        ensures written { OnOk result (self.new.written
            ≡ self.old.written ++ canonical (text t.now)) }
        ensures begun { self.new.begun ≡ self.old.begun }
        ensures unchanged { OnErr result (self.new ≡ self.old) }
    {
        append_atom(&mut self.written, "t", t)
    }

    pub fn number(&mut self, n: i128) -> Result<(), NoMemory>
        ensures written { OnOk result (self.new.written
            ≡ self.old.written ++ canonical (number n)) }
        ensures begun { self.new.begun ≡ self.old.begun }
        ensures unchanged { OnErr result (self.new ≡ self.old) }
    {
        let digits = digits_of(*self.written.allocator(), n)?;
        append_atom(&mut self.written, "n", digits.as_str())
    }

    pub fn truth(&mut self, b: bool) -> Result<(), NoMemory>
        ensures written { OnOk result (self.new.written
            ≡ self.old.written ++ canonical (truth b)) }
        ensures begun { self.new.begun ≡ self.old.begun }
        ensures unchanged { OnErr result (self.new ≡ self.old) }
    {
        let bytes = if b { b"b1" } else { b"b0" };
        self.written.extend_from_slice(bytes)?;
        Ok(())
    }

    /// A kind, as the text that is its name in PostgreSQL.
    pub fn kind(&mut self, kind: Kind) -> Result<(), NoMemory>
        ensures written { OnOk result (self.new.written
            ≡ self.old.written ++ canonical (kind_value kind)) }
        ensures begun { self.new.begun ≡ self.old.begun }
        ensures unchanged { OnErr result (self.new ≡ self.old) }
    {
        let mut name = Text::new(*self.written.allocator(), "")?;
        kind.append_to(Dialect::Postgresql, &mut name)?;
        append_atom(&mut self.written, "t", name.as_str())
    }

    /// A decimal, `units` divided by ten to the power `scale`, as the text with `scale` digits after
    /// the dot.
    pub fn decimal(&mut self, units: i128, scale: u8) -> Result<(), NoMemory>
        ensures written { OnOk result (self.new.written
            ≡ self.old.written ++ canonical (decimal_value units scale)) }
        ensures begun { self.new.begun ≡ self.old.begun }
        ensures unchanged { OnErr result (self.new ≡ self.old) }
    {
        let alloc = *self.written.allocator();
        let mut number = Text::new(alloc, "")?;
        append_fixed(alloc, units, scale, &mut number)?;
        append_atom(&mut self.written, "t", number.as_str())
    }

    fn begin(&mut self, begun: Begun, mark: u8) -> Result<(), NoMemory>
        ensures written { OnOk result (self.new.written ≡ self.old.written ++ mark ∷ []) }
        ensures begun { OnOk result (self.new.begun ≡ begun ∷ self.old.begun) }
        ensures unchanged { OnErr result (self.new ≡ self.old) }
    {
        self.begun.push(begun)?;
        if self.written.push(mark).is_err() {
            let _ = self.begun.pop();
            return Err(NoMemory);
        }
        Ok(())
    }

    fn end(&mut self, mark: u8) -> Result<(), NoMemory>
        ensures written { OnOk result (self.new.written ≡ self.old.written ++ mark ∷ []) }
        ensures begun { OnOk result (self.new.begun ≡ without_innermost self.old.begun) }
        ensures unchanged { OnErr result (self.new ≡ self.old) }
    {
        self.written.push(mark)?;
        let _ = self.begun.pop();
        Ok(())
    }
}

// Appends `mark` and the atom of `text`.
fn append_atom(bytes: &mut Vec<u8>, mark: &str, text: &str) -> Result<(), NoMemory>
    ensures ok { OnOk result (bytes.new.items ≡ bytes.old.items ++ (mark.now ++ atom text.now)) }
    ensures err { OnErr result (bytes.new.items ≡ bytes.old.items) }
{
    let head = head_of(*bytes.allocator(), mark, text.len())?;
    append_both(bytes, head.as_bytes(), text.as_bytes())
}

fn digits_of(alloc: Global, n: i128) -> Result<String, NoMemory>
    ensures { IfOk result (λ digits. string_bytes digits ≡ signed_numeral n) }
{
    Ok(format!(in alloc; "{n}")?)
}

// What stands before the text in an atom.
fn head_of(alloc: Global, mark: &str, length: usize) -> Result<String, NoMemory>
    ensures { IfOk result (λ head. string_bytes head
        ≡ mark.now ++ (numeral length ++ codes ":")) }
{
    Ok(format!(in alloc; "{mark}{length}:")?)
}

// Appends both or neither.
fn append_both(bytes: &mut Vec<u8>, head: &[u8], tail: &[u8]) -> Result<(), NoMemory>
    ensures ok { OnOk result (bytes.new.items ≡ bytes.old.items ++ (head.now ++ tail.now)) }
    ensures err { OnErr result (bytes.new.items ≡ bytes.old.items) }
{
    let before = bytes.len();
    bytes.extend_from_slice(head)?;
    if bytes.extend_from_slice(tail).is_err() {
        bytes.truncate(before);
        return Err(NoMemory);
    }
    Ok(())
}
