ghost use Rattle.std.specs.declared.alloc.Global.{Global};
ghost use denote.Ref.{MutBor};
ghost use Rattle.lq_model.specs.SqlParser as spec;
ghost use Rattle.lq_model.specs.SqlParser.{Parser, Reads};
ghost use Rattle.lq_model.specs.declared.word.Word.{Word};
ghost use Rattle.std.specs.Prelude.{List, Option};
ghost use Rattle.lq_parse.specs.Kinds.{Meets};

use crate::cursor::Words;
use lq_base::Items;
use lq_model::{ParseFault, WordKind};
use std::alloc::Global;

/// One or more, with commas between. `NotSql` where one of them is refused.
pub fn separated<T: Drop, F: Fn(Global, &mut Words<'_>) -> Result<T, ParseFault>>(
    alloc: Global,
    words: &mut Words<'_>,
    item: &F,
) -> Result<Items<T>, ParseFault>
    ghost p: { Parser T }
    requires callable { (alloc : Global) (old : MutBor (List Word)) → F.pre item.now alloc old }
    requires meets { Meets p (F.post item.now) }
    ensures { Reads (spec.separated p words.old) result words.new }
{
    let mut found = Items::new(alloc);
    found.push(item(alloc, words)?)?;
    for _turn in 0..words.left() {
        if !words.eat(WordKind::Comma) {
            return Ok(found);
        }
        found.push(item(alloc, words)?)?;
    }
    Ok(found)
}

/// One or more in parentheses, with commas between. `NotSql` where one of them is refused or a
/// parenthesis is missing.
#[tactic(auto, unfolding(lq_model::specs::SqlParser::enclosed))]
pub fn enclosed<T: Drop, F: Fn(Global, &mut Words<'_>) -> Result<T, ParseFault>>(
    alloc: Global,
    words: &mut Words<'_>,
    item: &F,
) -> Result<Items<T>, ParseFault>
    ghost p: { Parser T }
    requires callable { (alloc : Global) (old : MutBor (List Word)) → F.pre item.now alloc old }
    requires meets { Meets p (F.post item.now) }
    ensures { Reads (spec.enclosed p words.old) result words.new }
{
    words.expect(WordKind::Open)?;
    let found = separated(alloc, words, item)?;
    words.expect(WordKind::Close)?;
    Ok(found)
}

/// As many as stand there, up to where the item finds none. `NotSql` where one of them is refused.
pub fn many<T: Drop, F: Fn(Global, &mut Words<'_>) -> Result<Option<T>, ParseFault>>(
    alloc: Global,
    words: &mut Words<'_>,
    item: &F,
) -> Result<Items<T>, ParseFault>
    ghost p: { Parser (Option T) }
    requires callable { (alloc : Global) (old : MutBor (List Word)) → F.pre item.now alloc old }
    requires meets { Meets p (F.post item.now) }
    ensures { Reads (spec.many p words.old) result words.new }
{
    let mut found = Items::new(alloc);
    for _turn in 0..words.left() {
        match item(alloc, words)? {
            Some(it) => found.push(it)?,
            None => return Ok(found),
        }
    }
    Ok(found)
}
