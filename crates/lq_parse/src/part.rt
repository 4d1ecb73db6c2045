ghost use Rattle.lq_model.specs.SqlParser.{Gives, Reads};
ghost use Rattle.lq_model.specs.SqlPart as spec;

use crate::cursor::Words;
use crate::number::number;
use crate::spelling::may_be_name;
use lq_base::{Dialect, Literal, Name, NameFault, Text};
use lq_model::{ParseFault, WordKind};
use std::alloc::Global;

/// The name that a text is. `NotSql` where it is none: it has 1 to 63 bytes and no control
/// character.
#[tactic(auto, unfolding(lq_model::specs::SqlPart::name_of))]
pub fn name_of(alloc: Global, text: &str) -> Result<Name, ParseFault>
    ensures { Gives (spec.name_of text.now) result }
{
    match Name::new(alloc, text) {
        Ok(name) => Ok(name),
        Err(NameFault::BadName) => Err(ParseFault::NotSql),
        Err(NameFault::OutOfMemory) => Err(ParseFault::OutOfMemory),
    }
}

/// A name: in quotes, or a word that is no reserved word. `NotSql` where none comes next.
#[tactic(auto, unfolding(lq_model::specs::SqlPart::name))]
pub fn name(alloc: Global, words: &mut Words<'_>) -> Result<Name, ParseFault>
    ensures { Reads (spec.name words.old) result words.new }
{
    if !may_be_name(words.peek()) {
        return Err(ParseFault::NotSql);
    }
    name_of(alloc, words.take())
}

fn qualified(alloc: Global, schema: &Name, text: &Name) -> Result<Name, ParseFault>
    ensures { Gives (spec.qualified schema.now text.now) result }
{
    match Name::within(alloc, schema.as_key(), text.as_key()) {
        Ok(name) => Ok(name),
        Err(NameFault::BadName) => Err(ParseFault::NotSql),
        Err(NameFault::OutOfMemory) => Err(ParseFault::OutOfMemory),
    }
}

/// The name of a table, a view or a sequence, and of an index that is dropped: a name, before which
/// in PostgreSQL a schema and a dot may stand. `NotSql` where none comes next.
#[tactic(auto, unfolding(lq_model::specs::SqlPart::object))]
pub fn object(alloc: Global, dialect: Dialect, words: &mut Words<'_>) -> Result<Name, ParseFault>
    ensures { Reads (spec.object dialect words.old) result words.new }
{
    let first = name(alloc, words)?;
    match dialect {
        Dialect::Mysql => Ok(first),
        Dialect::Postgresql => {
            if !words.eat(WordKind::Dot) {
                return Ok(first);
            }
            let text = name(alloc, words)?;
            qualified(alloc, &first, &text)
        }
    }
}

fn number_literal(text: &str) -> Result<Literal, ParseFault>
    ensures { Gives (spec.number text.now) result }
{
    match number(text.as_bytes()) {
        Some(literal) => Ok(literal),
        None => Err(ParseFault::NotSql),
    }
}

/// NULL, TRUE, FALSE, a string or a number. `NotSql` where none comes next, or a number does not
/// fit: a whole one into 128 signed bits, another one into 38 digits.
#[tactic(auto, unfolding(lq_model::specs::SqlPart::literal))]
pub fn literal(alloc: Global, words: &mut Words<'_>) -> Result<Literal, ParseFault>
    ensures { Reads (spec.literal words.old) result words.new }
{
    match words.peek() {
        WordKind::Null => {
            words.skip();
            Ok(Literal::Null)
        }
        WordKind::True => {
            words.skip();
            Ok(Literal::Bool(true))
        }
        WordKind::False => {
            words.skip();
            Ok(Literal::Bool(false))
        }
        WordKind::Text => Ok(Literal::Text(Text::new(alloc, words.take())?)),
        WordKind::Number => number_literal(words.take()),
        _ => Err(ParseFault::NotSql),
    }
}
