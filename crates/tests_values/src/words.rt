use crate::copies::identity;
use lq_base::{Dialect, Duplicate, Exec, Name, NameFault, NoMemory, Reason, Text, both};
use std::alloc::Global;

/// The line of an identity behind a word.
pub fn identity_line(
    alloc: Global,
    file: &str,
    id: &str,
    author: &str,
) -> Result<String, NoMemory> {
    let mut line = Text::new(alloc, "ran ")?;
    identity(alloc, file, id, author)?.append_to(&mut line)?;
    Ok(String::from_str(alloc, line.as_str())?)
}

/// The words of a result and of both dialects.
pub fn fixed(alloc: Global) -> Result<String, NoMemory> {
    let (mark, first, second) = (
        Exec::MarkRan.text(),
        Dialect::Postgresql.text(),
        Dialect::Mysql.text(),
    );
    Ok(format!(in alloc; "{mark} {first} {second}")?)
}

/// Whether a text comes before another and is not equal to it.
pub fn text_order(alloc: Global, one: &str, two: &str) -> Result<String, NoMemory> {
    let (earlier, later) = both(Text::new(alloc, one), Text::new(alloc, two))?;
    let is_earlier = earlier < later && earlier != later;
    Ok(format!(in alloc; "{is_earlier}")?)
}

fn is_name(made: Result<Name, NameFault>) -> Result<bool, NoMemory> {
    match made {
        Ok(_) => Ok(true),
        Err(NameFault::BadName) => Ok(false),
        Err(NameFault::OutOfMemory) => Err(NoMemory),
    }
}

/// Whether a text is a name, as it is read and as a key.
pub fn name(alloc: Global, text: &str) -> Result<String, NoMemory> {
    let words = match (
        is_name(Name::new(alloc, text))?,
        is_name(Name::from_key(alloc, text))?,
    ) {
        (true, true) => "a name",
        (false, false) => "no name",
        _ => "a name in one way",
    };
    Ok(String::from_str(alloc, words)?)
}

fn order_of(alloc: Global, first: &Name, second: &Name) -> Result<String, NoMemory> {
    let is_first = first < second;
    let copy = first.duplicate(alloc)?;
    Ok(format!(in alloc; "{is_first} {}", copy.as_key())?)
}

/// Whether a name comes before a key, and a copy of the name.
pub fn name_order(alloc: Global, one: &str, two: &str) -> Result<String, NoMemory> {
    match (Name::new(alloc, one), Name::from_key(alloc, two)) {
        (Ok(first), Ok(second)) => order_of(alloc, &first, &second),
        _ => Ok(String::from_str(alloc, "no names")?),
    }
}

const REASONS: [Reason; 12] = [
    Reason::Exists,
    Reason::Missing,
    Reason::Depends,
    Reason::NullFound,
    Reason::Duplicate,
    Reason::NoParent,
    Reason::HasChildren,
    Reason::TooWide,
    Reason::WrongKind,
    Reason::Reserved,
    Reason::TooManyRows,
    Reason::NotOne,
];

/// The reason with a number.
pub fn reason(alloc: Global, number: &str) -> Result<String, NoMemory> {
    let number = number.parse::<u8>().unwrap_or(0);
    for reason in REASONS {
        if reason as u8 == number {
            return Ok(String::from_str(alloc, reason.text())?);
        }
    }
    Ok(String::from_str(alloc, "no reason")?)
}
