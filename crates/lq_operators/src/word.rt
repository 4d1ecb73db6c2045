use lq_base::Text;

/// A word of an expression.
#[derive(Drop)]
pub enum Word {
    Open,
    Close,
    Comma,
    Or,
    And,
    /// `not` or `!`
    Not,
    Name(Text),
}
