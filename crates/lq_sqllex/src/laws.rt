//! What holds of the definitions that the contracts cite. Each function is empty: its contract is
//! the law.

ghost use Rattle.lq_sqllex.specs.Laws.{LexemesAreTheText, LexemesGoOn, PiecesAreTheText, TextsAreRead, NamesAreRead, CommentsNest, PiecesHaveWords, PiecesGoOn, DelimitersAreInside};

/// The lexemes of a text, one after the other, are the text.
pub fn lexemes_are_the_text()
    ensures { LexemesAreTheText }
{}

/// After a lexeme the reading begins anew.
pub fn lexemes_go_on()
    ensures { LexemesGoOn }
{}

/// All pieces of a text, with the delimiters between them, are the text.
pub fn pieces_are_the_text()
    ensures { PiecesAreTheText }
{}

/// Each text in quotes, its quotes doubled and in mysql its backslashes, is read as one string.
pub fn texts_are_read()
    ensures { TextsAreRead }
{}

/// Each text in the quotes of names, which are doubled inside, is read as one quoted name.
pub fn names_are_read()
    ensures { NamesAreRead }
{}

/// In postgresql a whole comment inside another is passed over.
pub fn comments_nest()
    ensures { CommentsNest }
{}

/// No piece that is kept is of blanks and comments alone.
pub fn pieces_have_words()
    ensures { PiecesHaveWords }
{}

/// After a piece and its delimiter the reading begins anew.
pub fn pieces_go_on()
    ensures { PiecesGoOn }
{}

/// Where a delimiter stands in the first piece, it begins in a string, quoted name or comment.
pub fn delimiters_are_inside()
    ensures { DelimitersAreInside }
{}
