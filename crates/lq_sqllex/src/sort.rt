ghost use Rattle.std.specs.Prelude.{◌≡◌};
ghost use Rattle.lq_base.specs.Sql.{begins_number, plain_sort, sort_at};

use crate::comment::{begins_block_comment, begins_line_comment};
use lq_base::{Dialect, LexemeSort};
use lq_marks::{byte_at, is_blank, is_name_quote, is_text_quote, is_word_byte};

fn begins_number(first: u8, second: u8) -> bool
    ensures { result ≡ begins_number first second }
{
    first.is_ascii_digit() || (first == b'-' && second.is_ascii_digit())
}

fn plain_sort(dialect: Dialect, first: u8, second: u8) -> LexemeSort
    ensures { result ≡ plain_sort dialect first second }
{
    if is_text_quote(dialect, first) {
        LexemeSort::Text
    } else if is_name_quote(dialect, first) {
        LexemeSort::Name
    } else if is_blank(first) {
        LexemeSort::Blank
    } else if begins_number(first, second) {
        LexemeSort::Number
    } else if is_word_byte(first) {
        LexemeSort::Word
    } else {
        LexemeSort::Mark
    }
}

/// The sort of the lexeme at the front of a text, by its first bytes. Of an empty text it is a mark.
#[tactic(auto, using(crate::proofs::Plain::no_comment_above, crate::proofs::Plain::no_comment_below))]
pub fn sort_at(dialect: Dialect, text: &[u8]) -> LexemeSort
    ensures { result ≡ sort_at dialect text.now }
{
    let first = byte_at(text, 0);
    // Letters, digits and blanks begin no comment.
    if first > b'/' {
        return plain_sort(dialect, first, byte_at(text, 1));
    }
    if first < b'#' {
        return plain_sort(dialect, first, byte_at(text, 1));
    }
    if begins_line_comment(dialect, text) {
        LexemeSort::LineComment
    } else if begins_block_comment(dialect, text) {
        LexemeSort::BlockComment
    } else {
        plain_sort(dialect, first, byte_at(text, 1))
    }
}
