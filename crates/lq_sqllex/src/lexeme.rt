ghost use Rattle.std.specs.Prelude.{◌≡◌, ◌∷◌, ◌++◌, ◌<◌, length, None, Some, IfSome, option_map};
ghost use Rattle.lq_base.specs.Sql.{sort_at, length_at, lexemes};

use crate::length::length_at;
use crate::sort::sort_at;
use lq_base::{Dialect, LexemeSort};

/// A lexeme at the front of a text, and what follows it there.
#[derive(Clone, Copy)]
pub struct Lexeme<'a> {
    pub sort: LexemeSort,
    pub bytes: &'a [u8],
    pub rest: &'a [u8],
}

/// The lexeme at the front of a text: None where it is a string, quoted name or comment that is not
/// closed. The lexemes of the text are this one and those of what follows.
#[tactic(auto, using(crate::proofs::LexemeSteps::lexemes_open))]
pub fn lexeme_at<'a>(dialect: Dialect, text: &'a [u8]) -> Option<Lexeme<'a>>
    requires { 0 < length text.now }
    ensures sort { IfSome result (λ it. it.sort ≡ sort_at dialect text.now) }
    ensures length { IfSome result (λ it. length_at dialect text.now
        ≡ Some (length it.bytes.now)) }
    ensures some { IfSome result (λ it. 0 < length it.bytes.now) }
    ensures whole { IfSome result (λ it. text.now ≡ it.bytes.now ++ it.rest.now) }
    ensures more { IfSome result (λ it. lexemes dialect text.now
        ≡ option_map (λ more. (it.sort, it.bytes.now) ∷ more) (lexemes dialect it.rest.now)) }
    ensures unclosed { result ≡ None → length_at dialect text.now ≡ None }
    ensures none { result ≡ None → lexemes dialect text.now ≡ None }
{
    match length_at(dialect, text) {
        Some(count) => {
            let (bytes, rest) = text.split_at(count);
            Some(Lexeme {
                sort: sort_at(dialect, text),
                bytes,
                rest,
            })
        }
        None => None,
    }
}
