ghost use Rattle.std.specs.Prelude.{◌≡◌, ◌+◌, ◌<◌, ◌≤◌, length, drop, IfSome};
ghost use Rattle.std.specs.List.{prefix_len};
ghost use Rattle.lq_base.specs.Sql.{mark_length, goes_on, length_of, length_at};

use crate::comment::comment_length;
use crate::quoted::quoted_length;
use crate::sort::sort_at;
use lq_base::{Dialect, LexemeSort};
use lq_marks::{begins, escapes, from, is_blank, is_number_byte, is_word_byte, nests};

fn mark_length(text: &[u8]) -> usize
    ensures value { result ≡ mark_length text.now }
    ensures bound { 0 < length text.now → result ≤ length text.now }
    ensures some { 0 < result }
{
    if begins(b"<=", text) || begins(b">=", text) || begins(b"<>", text) || begins(b"!=", text) {
        2
    } else {
        1
    }
}

fn goes_on(sort: LexemeSort, byte: u8) -> bool
    ensures { result ≡ goes_on sort byte }
{
    match sort {
        LexemeSort::Blank => is_blank(byte),
        LexemeSort::LineComment => byte != b'\n',
        LexemeSort::Number => is_number_byte(byte),
        LexemeSort::Word => is_word_byte(byte),
        _ => false,
    }
}

fn run(sort: LexemeSort, text: &[u8]) -> usize
    ensures value { result ≡ prefix_len (goes_on sort) text.now }
    ensures bound { result ≤ length text.now }
{
    for (count, byte) in text.iter().enumerate() {
        if !goes_on(sort, *byte) {
            return count;
        }
    }
    text.len()
}

fn run_length(sort: LexemeSort, text: &[u8]) -> usize
    requires { 0 < length text.now }
    ensures value { result ≡ 1 + prefix_len (goes_on sort) (drop 1 text.now) }
    ensures bound { result ≤ length text.now }
{
    1 + run(sort, from(text, 1))
}

fn length_of(dialect: Dialect, sort: LexemeSort, text: &[u8]) -> Option<usize>
    requires { 0 < length text.now }
    ensures value { result ≡ length_of dialect sort text.now }
    ensures bound { IfSome result (λ n. n ≤ length text.now) }
    ensures some { IfSome result (λ n. 0 < n) }
{
    match sort {
        LexemeSort::BlockComment => comment_length(nests(dialect), text),
        LexemeSort::Name => quoted_length(false, text),
        LexemeSort::Text => quoted_length(escapes(dialect), text),
        LexemeSort::Mark => Some(mark_length(text)),
        LexemeSort::Blank | LexemeSort::LineComment | LexemeSort::Number | LexemeSort::Word => Some(
            run_length(sort, text),
        ),
    }
}

/// The number of bytes of the lexeme at the front of a text: None where it is a string, quoted name
/// or comment that is not closed.
#[tactic(auto, unfolding(lq_base::specs::Sql::length_at))]
pub fn length_at(dialect: Dialect, text: &[u8]) -> Option<usize>
    requires { 0 < length text.now }
    ensures value { result ≡ length_at dialect text.now }
    ensures bound { IfSome result (λ n. n ≤ length text.now) }
    ensures some { IfSome result (λ n. 0 < n) }
{
    length_of(dialect, sort_at(dialect, text), text)
}
