ghost use Rattle.std.specs.Prelude.{◌≡◌, ◌++◌, [], IfOk, OnOk, string_bytes};
ghost use Rattle.lq_expr.specs.Words.{is_blank, is_mark, word_of, words, spelled_words};

use lq_base::{Items, NoMemory, Text};
use lq_operators::Word;
use std::alloc::Global;

/// The words of a text.
pub fn words(alloc: Global, text: &str) -> Result<Items<Word>, NoMemory>
    ensures { IfOk result (λ found. found ≡ words text.now) }
{
    let mut found = Items::new(alloc);
    let mut run = String::new(alloc);
    for c in text.chars() {
        if is_blank(c) {
            end_run(alloc, &mut found, &mut run)?;
        } else if is_mark(c) {
            end_run(alloc, &mut found, &mut run)?;
            run.push(c)?;
            end_run(alloc, &mut found, &mut run)?;
        } else {
            run.push(c)?;
        }
    }
    end_run(alloc, &mut found, &mut run)?;
    Ok(found)
}

// The run becomes a word, unless it is empty.
fn end_run(alloc: Global, found: &mut Items<Word>, run: &mut String) -> Result<(), NoMemory>
    ensures words { OnOk result (found.new ≡ found.old ++ spelled_words (string_bytes run.old)) }
    ensures empty { OnOk result (string_bytes run.new ≡ []) }
{
    if !run.is_empty() {
        found.push(word_of(alloc, run.as_str())?)?;
    }
    run.clear();
    Ok(())
}

// The word that is spelled so, in any case of its ASCII letters.
#[tactic(auto, unfolding(crate::specs::Words::word_of))]
fn word_of(alloc: Global, spelled: &str) -> Result<Word, NoMemory>
    ensures { IfOk result (λ word. word ≡ word_of spelled.now) }
{
    match spelled {
        "(" => return Ok(Word::Open),
        ")" => return Ok(Word::Close),
        "," => return Ok(Word::Comma),
        "!" => return Ok(Word::Not),
        _ => {}
    }
    if spelled.eq_ignore_ascii_case("or") {
        return Ok(Word::Or);
    }
    if spelled.eq_ignore_ascii_case("and") {
        return Ok(Word::And);
    }
    if spelled.eq_ignore_ascii_case("not") {
        return Ok(Word::Not);
    }
    Ok(Word::Name(Text::new(alloc, spelled)?))
}

fn is_blank(c: char) -> bool
    ensures { result ≡ is_blank c }
{
    c == ' ' || c == '\t' || c == '\n' || c == '\r'
}

fn is_mark(c: char) -> bool
    ensures { result ≡ is_mark c }
{
    c == '(' || c == ')' || c == ',' || c == '!'
}
