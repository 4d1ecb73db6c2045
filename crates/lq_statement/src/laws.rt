//! What holds of the definitions that the contracts cite. Each function calls those whose laws it
//! stands on, and its contract is the law.

ghost use Rattle.lq_statement.specs.Laws.{BlanksChangeNoStatement, SpellingsChangeNoStatement, StatementsCanBeWritten, StatementsReadBack, WordsAreTheStatement};

use lq_base::laws::{fixed_reads_back, number_of_spells, spells_gives_number_of};
use lq_sqllex::laws::{lexemes_go_on, names_are_read, texts_are_read};

/// A statement of the dialect is read from its canonical text.
pub fn statements_read_back()
    ensures { StatementsReadBack }
{
    lexemes_go_on();
    names_are_read();
    texts_are_read();
    fixed_reads_back();
    spells_gives_number_of();
}

/// A statement that a text spells is one of the dialect.
pub fn statements_can_be_written()
    ensures { StatementsCanBeWritten }
{
    number_of_spells();
}

/// Other blanks and comments between the words of a text change nothing.
pub fn blanks_change_no_statement()
    ensures { BlanksChangeNoStatement }
{}

/// Nothing of a text counts but its words.
pub fn words_are_the_statement()
    ensures { WordsAreTheStatement }
{}

/// A text that differs in the case of words where it says nothing, in `!=` for `<>`, in blanks and
/// in comments alone is read alike.
pub fn spellings_change_no_statement()
    ensures { SpellingsChangeNoStatement }
{}
