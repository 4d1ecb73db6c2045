//! What createTable and addColumn can state of a column besides its kind and values.

ghost use Rattle.std.specs.Option.{option_copied, option_map};
ghost use Rattle.std.specs.Prelude.{◌≡◌, ◌<◌, ◌∷◌, [], IfOk, IfSome, MatchOption, false, length, true};
ghost use Rattle.std.specs.Str.{is_utf8};
ghost use Rattle.lq_base.specs.Name.{is_name};
ghost use Rattle.lq_base.specs.Number.{if_there};
ghost use Rattle.lq_model.specs.Changes.{text};
ghost use Rattle.lq_model.specs.TakesBack.{field_value};
ghost use Rattle.lq_tables.specs.Constraints.{closed, foreign_stated, is_target, last_open, name_in, target_at, target_of, unique_stated};

use lq_base::{Duplicate, Items, KindFault, Name, NameFault, NoMemory, Text, both};
use lq_model::{Field, ForeignKey, Target, Unique, unique_name};
use lq_tree::{Given, Node, bad};
use std::alloc::Global;

/// The column that a foreign key targets, as `TABLE(COLUMN)`.
pub struct Reference {
    /// As it was given.
    pub text: Text,
    pub target: Target,
}

// Written out, so that each place that lets one go is one call.
impl Drop for Reference {
    fn drop(self) {
        let Reference { text, target } = self;
        drop(text);
        drop(target);
    }
}

fn as_text(bytes: &[u8]) -> Option<&str>
    ensures { MatchOption result (is_utf8 bytes.now ≡ false)
        (λ text. (text.now ≡ bytes.now) × (is_utf8 bytes.now ≡ true)) }
{
    match str::from_utf8(bytes) {
        Ok(text) => Some(text),
        Err(_) => None,
    }
}

fn name_in(alloc: Global, bytes: &[u8]) -> Result<Option<Name>, NoMemory>
    ensures value { IfOk result (λ found. found ≡ name_in bytes.now) }
    ensures name { IfOk result (λ found. if_there is_name found ≡ true) }
{
    let Some(text) = as_text(bytes) else {
        return Ok(None);
    };
    match Name::new(alloc, text) {
        Ok(name) => Ok(Some(name)),
        Err(NameFault::BadName) => Ok(None),
        Err(NameFault::OutOfMemory) => Err(NoMemory),
    }
}

// The place of the last `(`.
fn last_open(bytes: &[u8]) -> Option<usize>
    ensures place { result ≡ last_open bytes.now }
    ensures inside { IfSome result (λ place. place < length bytes.now) }
{
    let Some((byte, rest)) = bytes.split_first() else {
        return None;
    };
    match last_open(rest) {
        Some(place) => Some(place + 1),
        None => if *byte == b'(' { Some(0) } else { None },
    }
}

// What stands before a `)` at the end.
#[tactic(auto, using(crate::proofs::Closed::closed_last))]
fn closed(bytes: &[u8]) -> Option<&[u8]>
    ensures { option_copied result ≡ closed bytes.now }
{
    let (last, front) = bytes.split_last()?;
    if *last == b')' { Some(front) } else { None }
}

fn target_at(alloc: Global, text: &[u8], place: usize) -> Result<Option<Target>, NoMemory>
    requires { place < length text.now }
    ensures value { IfOk result (λ found. found ≡ target_at text.now place) }
    ensures names { IfOk result (λ found. if_there is_target found ≡ true) }
{
    let Some(table) = name_in(alloc, &text[..place])? else {
        return Ok(None);
    };
    let Some(inner) = closed(&text[place + 1..]) else {
        return Ok(None);
    };
    match name_in(alloc, inner)? {
        Some(column) => Ok(Some(Target { table, column })),
        None => Ok(None),
    }
}

fn target_of(alloc: Global, text: &[u8]) -> Result<Option<Target>, NoMemory>
    ensures value { IfOk result (λ found. found ≡ target_of text.now) }
    ensures names { IfOk result (λ found. if_there is_target found ≡ true) }
{
    if text.len() > 128 {
        return Ok(None);
    }
    match last_open(text) {
        Some(place) => target_at(alloc, text, place),
        None => Ok(None),
    }
}

impl Given for Reference {
    ghost use Rattle.lq_tables.specs.Constraints.{a_reference, is_reference};

    ghost of = { a_reference };

    ghost fits = { is_reference };

    #[tactic(auto, using(crate::specs::ConstraintsLaws::found_fits), unfolding(crate::specs::Constraints::a_reference))]
    fn given(alloc: Global, node: &Node) -> Result<Reference, KindFault> {
        let text = Text::given(alloc, node)?;
        match target_of(alloc, text.as_str().as_bytes())? {
            Some(target) => Ok(Reference { text, target }),
            None => Err(bad(alloc)),
        }
    }
}

// A list of the one name.
fn one_name(alloc: Global, name: &Name) -> Result<Items<Name>, NoMemory>
    ensures { IfOk result (λ names. names ≡ name.now ∷ []) }
{
    let name = name.duplicate(alloc)?;
    let mut names = Items::new(alloc);
    names.push(name)?;
    Ok(names)
}

/// The unique constraint of a column, where there is one.
pub(crate) fn unique_stated(
    alloc: Global,
    table: &Name,
    column: &Name,
    unique: Option<bool>,
    name: &Option<Name>,
) -> Result<Option<Unique>, NoMemory>
    ensures { IfOk result (λ made. made ≡ unique_stated table.now column.now unique name.now) }
{
    if !unique.unwrap_or(false) {
        return Ok(None);
    }
    let columns = one_name(alloc, column)?;
    let name = match name {
        Some(name) => name.duplicate(alloc)?,
        None => unique_name(alloc, table, columns.as_slice())?,
    };
    Ok(Some(Unique { name, columns }))
}

/// The foreign key of a column of a table, where there is one. It targets a table of the same
/// schema.
pub(crate) fn foreign_stated(
    alloc: Global,
    table: &Name,
    column: &Name,
    references: &Option<Reference>,
    name: &Option<Name>,
) -> Result<Option<ForeignKey>, NoMemory>
    ensures { IfOk result
        (λ made. made ≡ foreign_stated table.now column.now references.now name.now) }
{
    let (Some(reference), Some(name)) = (references, name) else {
        return Ok(None);
    };
    let target = &reference.target;
    let names = both(name.duplicate(alloc), target.table.beside(alloc, table));
    let lists = both(one_name(alloc, column), one_name(alloc, &target.column));
    let ((name, table), (columns, targets)) = both(names, lists)?;
    Ok(Some(ForeignKey {
        name,
        columns,
        table,
        targets,
        cascade: false,
    }))
}

/// What a key with a reference has in canonical text, where it was given.
pub(crate) fn reference_field(found: &Option<Reference>) -> Option<Field>
    ensures { option_map field_value result ≡ option_map (λ r. text r.text) found.now }
{
    match found {
        Some(reference) => Some(Field::Text(reference.text.as_str())),
        None => None,
    }
}
