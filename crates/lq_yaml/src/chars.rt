ghost use Rattle.std.specs.Prelude.{◌≡◌, ◌≤◌, IfOk, chars, encode_utf8_all, length, string_bytes};
ghost use Rattle.lq_yaml.specs.Tree.{is_blank};
ghost use Rattle.lq_yaml.specs.Line.{spaces, without_spaces, without_blanks, trimmed, begins_with, is_word_end};

use lq_base::{NoMemory, Text};
use std::alloc::Global;

/// The characters of a line.
pub fn chars_of(alloc: Global, line: &str) -> Result<Vec<char>, NoMemory>
    ensures { IfOk result (λ v. v.items ≡ chars line.now) }
{
    let found = line.chars().collect(alloc)?;
    Ok(found)
}

/// The text of characters.
pub fn text_of(alloc: Global, from: &[char]) -> Result<Text, NoMemory>
    ensures { IfOk result (λ t. t ≡ encode_utf8_all from.now) }
{
    let text = string_of(alloc, from)?;
    Text::new(alloc, text.as_str())
}

fn string_of(alloc: Global, from: &[char]) -> Result<String, NoMemory>
    ensures { IfOk result (λ t. string_bytes t ≡ encode_utf8_all from.now) }
{
    let mut text = String::new(alloc);
    for c in from {
        text.push(*c)?;
    }
    Ok(text)
}

pub fn is_blank(c: char) -> bool
    ensures { result ≡ is_blank c }
{
    c == ' ' || c == '\t'
}

/// How many spaces stand in front.
pub fn spaces(from: &[char]) -> usize
    ensures count { result ≡ spaces from.now }
    ensures bound { result ≤ length from.now }
{
    let mut count = 0;
    let mut rest = from;
    while let [' ', more @ ..] = rest {
        rest = more;
        count += 1;
    }
    count
}

/// What follows the spaces in front.
pub fn without_spaces(from: &[char]) -> &[char]
    ensures rest { result.now ≡ without_spaces from.now }
    ensures bound { length result.now ≤ length from.now }
{
    let mut rest = from;
    while let [' ', more @ ..] = rest {
        rest = more;
    }
    rest
}

/// What follows the blanks in front.
pub fn without_blanks(from: &[char]) -> &[char]
    ensures rest { result.now ≡ without_blanks from.now }
    ensures bound { length result.now ≤ length from.now }
{
    let mut rest = from;
    while let [' ' | '\t', more @ ..] = rest {
        rest = more;
    }
    rest
}

/// The characters without the blanks at their end.
pub fn trimmed(from: &[char]) -> &[char]
    ensures front { result.now ≡ trimmed from.now }
    ensures bound { length result.now ≤ length from.now }
{
    let mut end = from.len();
    while end > 0 && is_blank(from[end - 1]) {
        end -= 1;
    }
    &from[..end]
}

pub fn begins_with(c: char, from: &[char]) -> bool
    ensures { result ≡ begins_with c from.now }
{
    match from {
        [first, ..] => *first == c,
        [] => false,
    }
}

/// Whether a word ends here.
pub fn is_word_end(from: &[char]) -> bool
    ensures { result ≡ is_word_end from.now }
{
    matches!(from, [] | [' ', ..])
}
