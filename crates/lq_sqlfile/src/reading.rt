ghost use Rattle.std.specs.Prelude.{◌≡◌, ◌<◌, ◌≤◌, ◌^◌, ◌++◌, Ok, Err, IfOk, OnOk, None, option_map, option_and_then, length, ◌⊎◌, ℕ, [], ◌∷◌};
ghost use Rattle.std.specs.Str.{is_utf8};
ghost use Rattle.std.specs.Str.Lines.{lines, strip_carriage_return};
ghost use Rattle.lq_sqlfile.specs.File.{HasHeader, IsFile, IsWrong, is_idle, closed, closed_all, take_inside, take_part, take_line, text_in, read_from, file_of};
ghost use Rattle.lq_sqlfile.specs.Lines.{header};
ghost use Rattle.lq_sqlfile.specs.declared.fault.SqlFault.TheVariants.{NoHeader, Line, OutOfMemory};
ghost use Rattle.lq_sqlfile.specs.declared.file.SqlFile.{SqlFile};
ghost use Rattle.lq_sqlfile.specs.View.{Gives, GivesSets, Takes, IsNext};

use crate::draft::{Draft, are_blanks};
use crate::fault::SqlFault;
use crate::file::{SqlFile, SqlSet};
use crate::line::{header, part_of};
use crate::part::Part;
use lq_base::{Items, NoMemory, Text, place_of};
use std::alloc::Global;
use std::str;

/// The changesets that have ended, and the one that is open.
#[derive(Drop)]
pub struct Reader {
    pub sets: Items<SqlSet>,
    pub draft: Option<Draft>,
}

fn is_idle(part: &Part) -> bool
    ensures { result ≡ is_idle part.now }
{
    match part {
        Part::Note => true,
        Part::Body(line) => are_blanks(line.as_str()),
        Part::ChangeSet(_) => false,
        Part::Comment(_) => false,
        Part::Conditions(_) => false,
        Part::Check(..) => false,
        Part::Rollback(_) => false,
    }
}

// `push`, for any items: what memory is asked for at a changeset's size stands behind a parameter.
fn pushed<T: Drop>(items: &mut Items<T>, item: T) -> Result<(), NoMemory>
    ensures { OnOk result (items.new ≡ items.old ++ item ∷ []) }
{
    items.push(item)?;
    Ok(())
}

fn push_closed(sets: &mut Items<SqlSet>, alloc: Global, draft: Draft) -> Result<(), NoMemory>
    ensures { OnOk result (sets.new ≡ sets.old ++ closed draft ∷ []) }
{
    pushed(sets, draft.close(alloc)?)
}

impl Reader {
    // Ends the open changeset, if there is one.
    fn end(&mut self, alloc: Global) -> Result<(), NoMemory>
        ensures { OnOk result (self.new.sets ≡ self.old.sets ++ closed_all self.old.draft) }
    {
        match self.draft.take() {
            Some(draft) => push_closed(&mut self.sets, alloc, draft),
            None => Ok(()),
        }
    }

    // A part that is no heading.
    fn take_inside(&mut self, alloc: Global, part: Part) -> Result<bool, NoMemory>
        ensures { IfOk result
            (λ taken. Takes taken (take_inside part self.old.draft) self.old self.new) }
    {
        let Some(draft) = self.draft.take() else {
            return Ok(is_idle(&part));
        };
        match draft.with_part(alloc, part)? {
            Some(next) => {
                self.draft = Some(next);
                Ok(true)
            }
            None => Ok(false),
        }
    }

    fn take_part(&mut self, alloc: Global, line: u32, part: Part) -> Result<bool, NoMemory>
        ensures { IfOk result
            (λ taken. Takes taken (take_part line part self.old.draft) self.old self.new) }
    {
        match part {
            Part::ChangeSet(heading) => {
                self.end(alloc)?;
                self.draft = Some(Draft::new(alloc, line, heading)?);
                Ok(true)
            }
            Part::Comment(text) => self.take_inside(alloc, Part::Comment(text)),
            Part::Conditions(pairs) => self.take_inside(alloc, Part::Conditions(pairs)),
            Part::Check(expected, query) => self.take_inside(alloc, Part::Check(expected, query)),
            Part::Rollback(text) => self.take_inside(alloc, Part::Rollback(text)),
            Part::Note => self.take_inside(alloc, Part::Note),
            Part::Body(text) => self.take_inside(alloc, Part::Body(text)),
        }
    }

    // Takes a line, if some file goes on so.
    #[tactic(auto, unfolding(crate::specs::File::take_line))]
    fn take_line(&mut self, alloc: Global, number: u32, line: &[u8]) -> Result<bool, NoMemory>
        ensures { IfOk result
            (λ taken. Takes taken (take_line number line.now self.old.draft) self.old self.new) }
    {
        let Some(text) = text_in(line) else {
            return Ok(false);
        };
        match part_of(alloc, text)? {
            Some(part) => self.take_part(alloc, number, part),
            None => Ok(false),
        }
    }
}

// The bytes as a text, if they are UTF-8.
fn text_in(bytes: &[u8]) -> Option<&str>
    ensures { option_map (λ text. text.now) result ≡ text_in bytes.now }
{
    match str::from_utf8(bytes) {
        Ok(text) => Some(text),
        Err(_) => None,
    }
}

fn without_return(line: &[u8]) -> &[u8]
    ensures { result.now ≡ strip_carriage_return line.now }
{
    match line {
        [front @ .., b'\r'] => front,
        _ => line,
    }
}

// The first line without its end, and the bytes behind it.
fn next_line(bytes: &[u8]) -> Option<(&[u8], &[u8])>
    ensures { IsNext bytes.now result }
{
    if bytes.is_empty() {
        return None;
    }
    let place = place_of(bytes, b'\n');
    if place == bytes.len() {
        return Some((bytes, &bytes[place..]));
    }
    Some((without_return(&bytes[..place]), &bytes[place + 1..]))
}

// The changesets of the lines behind the first.
fn read_sets(alloc: Global, bytes: &[u8]) -> Result<Items<SqlSet>, SqlFault>
    requires { length bytes.now ≤ 16_777_216 }
    ensures { GivesSets (read_from 2 (lines bytes.now) None) result }
{
    let mut reader = Reader {
        sets: Items::new(alloc),
        draft: None,
    };
    let mut rest = bytes;
    let mut number = 2;
    while let Some((line, behind)) = next_line(rest) {
        if !reader.take_line(alloc, number, line)? {
            return Err(SqlFault::Line(number));
        }
        rest = behind;
        number += 1;
    }
    reader.end(alloc)?;
    Ok(reader.sets)
}

// The logical path that the first line names, if it is a header.
fn header_in(alloc: Global, line: &[u8]) -> Result<Option<Option<Text>>, NoMemory>
    ensures { IfOk result (λ logical. logical ≡ option_and_then header (text_in line.now)) }
{
    match text_in(line) {
        Some(text) => header(alloc, text),
        None => Ok(None),
    }
}

fn file_in(alloc: Global, bytes: &[u8]) -> Result<SqlFile, SqlFault>
    requires { length bytes.now ≤ 16_777_216 }
    ensures { Gives (file_of (lines bytes.now)) result }
{
    let Some((first, rest)) = next_line(bytes) else {
        return Err(SqlFault::NoHeader);
    };
    let Some(logical) = header_in(alloc, first)? else {
        return Err(SqlFault::NoHeader);
    };
    Ok(SqlFile {
        logical,
        sets: read_sets(alloc, rest)?,
    })
}

/// The changesets that the bytes of a file of formatted SQL hold: at most 16,777,216 bytes.
pub fn read_sql(alloc: Global, bytes: &[u8]) -> Result<SqlFile, SqlFault>
    requires { length bytes.now ≤ 16_777_216 }
    ensures file { IfOk result (λ file. IsFile (lines bytes.now) file) }
    ensures whole { (file : SqlFile)
        → IsFile (lines bytes.now) file
        → (result ≡ Ok file) ⊎ (result ≡ Err OutOfMemory) }
    ensures no_header { result ≡ Err NoHeader → ¬ (HasHeader (lines bytes.now)) }
    ensures headless { ¬ (HasHeader (lines bytes.now))
        → (result ≡ Err NoHeader) ⊎ (result ≡ Err OutOfMemory) }
    ensures line { (n : ℕ) → result ≡ Err (Line n) → IsWrong (lines bytes.now) n }
    ensures wrong { (n : ℕ)
        → IsWrong (lines bytes.now) n
        → (result ≡ Err (Line n)) ⊎ (result ≡ Err OutOfMemory) }
{
    file_in(alloc, bytes)
}
