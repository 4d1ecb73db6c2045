ghost use Rattle.std.specs.Prelude.{◌≡◌, IfOk, string_bytes};
ghost use Rattle.lq_words.specs.Words.{plain, shown};

use lq_base::{NoMemory, Text};
use std::alloc::{AllocError, Global};

/// How a character stands in a line: a control character as `_`, any other as it is.
pub fn shown(character: char) -> char
    ensures { result ≡ shown character }
{
    match character {
        '\0'..='\u{1f}' | '\u{7f}' => '_',
        _ => character,
    }
}

/// The text with `_` for each control character, so that it begins no line of its own.
pub fn plain(alloc: Global, text: &str) -> Result<Text, NoMemory>
    ensures { IfOk result (λ made. made ≡ plain text.now) }
{
    let made = shown_all(alloc, text)?;
    Text::new(alloc, made.as_str())
}

#[tactic(auto, unfolding(crate::specs::Words::plain))]
fn shown_all(alloc: Global, text: &str) -> Result<String, AllocError>
    ensures { IfOk result (λ made. string_bytes made ≡ plain text.now) }
{
    text.chars().map(shown).collect(alloc)
}
