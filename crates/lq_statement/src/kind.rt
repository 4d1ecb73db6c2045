ghost use Rattle.lq_model.specs.SqlParser.{Reads};
ghost use Rattle.lq_model.specs.SqlPart as spec;

use crate::given::given;
use lq_base::{Kind, plain_number};
use lq_model::{ParseFault, WordKind};
use lq_parse::cursor::Words;

#[tactic(auto, unfolding(lq_model::specs::SqlPart::kind_number, lq_model::specs::SqlParser::sees))]
fn kind_number(words: &mut Words<'_>) -> Result<u128, ParseFault>
    ensures { Reads (spec.kind_number words.old) result words.new }
{
    if !words.sees(WordKind::Number) {
        return Err(ParseFault::NotSql);
    }
    given(plain_number(words.take().as_bytes()))
}

#[tactic(auto, unfolding(lq_model::specs::SqlPart::sized_with))]
fn sized_with(words: &mut Words<'_>, said: &str, first: u128) -> Result<Kind, ParseFault>
    ensures { Reads (spec.sized_with said.now first words.old) result words.new }
{
    words.expect(WordKind::Close)?;
    given(Kind::sized(said.as_bytes(), first))
}

#[tactic(auto, unfolding(lq_model::specs::SqlPart::decimal_with))]
fn decimal_with(words: &mut Words<'_>, said: &str, first: u128) -> Result<Kind, ParseFault>
    ensures { Reads (spec.decimal_with said.now first words.old) result words.new }
{
    let second = kind_number(words)?;
    words.expect(WordKind::Close)?;
    given(Kind::decimal(said.as_bytes(), first, second))
}

#[tactic(auto, unfolding(lq_model::specs::SqlPart::kind_with))]
fn kind_with(words: &mut Words<'_>, said: &str) -> Result<Kind, ParseFault>
    ensures { Reads (spec.kind_with said.now words.old) result words.new }
{
    let first = kind_number(words)?;
    if words.eat(WordKind::Comma) {
        decimal_with(words, said, first)
    } else {
        sized_with(words, said, first)
    }
}

/// A column's kind: one word, also with one number or two in parentheses.
#[tactic(auto, unfolding(lq_model::specs::SqlPart::column_kind, lq_model::specs::SqlParser::sees))]
pub fn column_kind(words: &mut Words<'_>) -> Result<Kind, ParseFault>
    ensures { Reads (spec.column_kind words.old) result words.new }
{
    let plain = words.sees(WordKind::Plain);
    let said = words.take();
    let sized = words.eat(WordKind::Open);
    if !plain {
        return Err(ParseFault::NotSql);
    }
    if sized {
        kind_with(words, said)
    } else {
        given(Kind::plain(said.as_bytes()))
    }
}
