/// What a line stands after. A column is that of the innermost collection's heads.
#[derive(Clone, Copy, PartialEq, Eq)]
pub enum Mode {
    /// No line yet that isn't skipped.
    Fresh,
    /// A line, without an open literal block.
    Between(usize),
    /// The header of a literal block, without a line yet that isn't blank.
    AfterHeader(usize),
    /// A literal block, and the indent of its lines.
    InLiteral(usize, usize),
}
