//! How the texts of statements and queries may be spelled. Each function's contract is the law.

ghost use Rattle.lq_spelling.specs.Laws.{QueryWordsServe, QuotesMayBeLeftOut, UnquotedWordsServe};

/// In a statement and in a query names may leave their quotes out, where they are words that are
/// not reserved.
pub fn quotes_may_be_left_out()
    ensures { QuotesMayBeLeftOut }
{}

/// An unquoted word of a statement that is not reserved is a name, which may stand in its quotes,
/// or a word of the statements or of the kinds, which may stand in any ASCII case.
pub fn unquoted_words_serve()
    ensures { UnquotedWordsServe }
{}

/// Likewise an unquoted word of a query.
pub fn query_words_serve()
    ensures { QueryWordsServe }
{}
