use lq_base::Text;
use lq_tree::Node;

/// What begins an entry of a collection.
#[derive(Drop)]
pub enum Head {
    Dash,
    Key(Text),
}

/// How a literal block's last line ends.
#[derive(Clone, Copy, PartialEq, Eq)]
pub enum Chomping {
    /// As `|` says: with a line feed.
    Clip,
    /// As `|-` says: without one.
    Strip,
}

/// A part of a line. Its rank says how deep it stands: of two parts the one of greater rank is inside.
/// At column `c` a key, or a value in a line of its own, has rank `2c + 1`, and a dash `2c + 2`.
#[derive(Drop)]
pub enum Token {
    Begin(usize, Head),
    /// A scalar, `[]` or `{}`.
    Value(usize, Node),
    /// The header of a literal block.
    LiteralHeader(usize, Chomping),
    /// A line of a literal block, without its indent.
    LiteralLine(Text),
}
