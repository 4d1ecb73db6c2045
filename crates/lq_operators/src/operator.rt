ghost use Rattle.std.specs.Prelude.{◌≡◌};
ghost use Rattle.lq_operators.specs.Operators.{is_operator};

use crate::word::Word;

/// What joins the parts of an expression, from the loosest to the tightest.
#[derive(Clone, Copy, PartialEq, Eq)]
pub enum Operator {
    Comma,
    Or,
    And,
}

impl Operator {
    /// Whether the word is this operator.
    pub fn is_word(self, word: &Word) -> bool
        ensures { result ≡ is_operator self word.now }
    {
        match (self, word) {
            (Operator::Comma, Word::Comma) => true,
            (Operator::Or, Word::Or) => true,
            (Operator::And, Word::And) => true,
            _ => false,
        }
    }
}
