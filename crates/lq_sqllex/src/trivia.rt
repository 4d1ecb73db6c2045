ghost use Rattle.std.specs.Prelude.{◌≡◌};
ghost use Rattle.lq_base.specs.Sql.{is_trivia_sort, is_trivia};

use crate::lexeme::lexeme_at;
use lq_base::{Dialect, LexemeSort};

fn is_trivia_sort(sort: LexemeSort) -> bool
    ensures { result ≡ is_trivia_sort sort }
{
    match sort {
        LexemeSort::Blank | LexemeSort::LineComment | LexemeSort::BlockComment => true,
        _ => false,
    }
}

/// Whether a text is of blanks and comments alone, or empty. One with a string, quoted name or
/// comment that is not closed is not.
pub fn is_trivia(dialect: Dialect, text: &[u8]) -> bool
    ensures { result ≡ is_trivia dialect text.now }
{
    let mut left = text;
    while !left.is_empty() {
        let Some(lexeme) = lexeme_at(dialect, left) else {
            return false;
        };
        if !is_trivia_sort(lexeme.sort) {
            return false;
        }
        left = lexeme.rest;
    }
    true
}
