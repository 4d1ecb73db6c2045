//! What the definition of an expression amounts to.
ghost use Rattle.lq_expr.specs.Spelled.{SpelledIsRead, ReadIsSpelled};

/// The words of an expression, built up from its parts, are read as its tree, and so as no other.
pub fn spelled_is_read()
    ensures { SpelledIsRead }
{}

/// Words that are read as a tree are the words of an expression with that tree.
pub fn read_is_spelled()
    ensures { ReadIsSpelled }
{}
