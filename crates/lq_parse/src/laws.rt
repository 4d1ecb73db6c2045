//! What holds of the definitions that the contracts cite. Each function calls those whose laws it
//! stands on, and its contract is the law.

ghost use Rattle.lq_parse.specs.Laws.{BlanksChangeNothing, CaseChangesNothing, CountInAnyCase, EscapesAreRead, KeywordsInAnyCase, NamesNeedNoQuotes, NotAndOrBindInTurn, OtherBackslashesFallAway, QueriesCanBeWritten, QueriesReadBack, QuotedNamesAreOneWord, QuotesChangeNoQuery, QuotesChangeNoTest, ReservedWordsInAnyCase, SpellingsChangeNothing, StringsAreOneWord, TestsCanBeWritten, TestsReadBack, UnequalIsOneMark, WordsAreTheMeaning, WordsInAnyCase};

use lq_base::laws::{fixed_reads_back, number_of_spells, spells_gives_number_of};
use lq_sqllex::laws::{lexemes_go_on, names_are_read, texts_are_read};

/// A test that can be written is read from its canonical text.
pub fn tests_read_back()
    ensures { TestsReadBack }
{
    lexemes_go_on();
    names_are_read();
    texts_are_read();
    fixed_reads_back();
    spells_gives_number_of();
}

/// A query that can be written is read from its canonical text.
pub fn queries_read_back()
    ensures { QueriesReadBack }
{
    lexemes_go_on();
    names_are_read();
    texts_are_read();
    fixed_reads_back();
    spells_gives_number_of();
}

/// A test that is read can be written.
pub fn tests_can_be_written()
    ensures { TestsCanBeWritten }
{
    number_of_spells();
}

/// A query that is read can be written.
pub fn queries_can_be_written()
    ensures { QueriesCanBeWritten }
{
    number_of_spells();
}

/// Nothing of a text counts but its words.
pub fn words_are_the_meaning()
    ensures { WordsAreTheMeaning }
{}

/// Other blanks and comments between the words of a text change nothing.
pub fn blanks_change_nothing()
    ensures { BlanksChangeNothing }
{}

/// A word of the statements is the same one in any ASCII case.
pub fn case_changes_nothing()
    ensures { CaseChangesNothing }
{}

/// A reserved word is read alike in any ASCII case.
pub fn reserved_words_in_any_case()
    ensures { ReservedWordsInAnyCase }
{}

/// In postgresql each unquoted word is read alike in any ASCII case.
pub fn words_in_any_case()
    ensures { WordsInAnyCase }
{}

/// `!=` and `<>` are one mark.
pub fn unequal_is_one_mark()
    ensures { UnequalIsOneMark }
{}

/// A word that may be a name is read as that name in quotes.
pub fn names_need_no_quotes()
    ensures { NamesNeedNoQuotes }
{}

/// A text that differs in the case of words where it says nothing, in `!=` for `<>`, in blanks and
/// in comments alone is read alike.
pub fn spellings_change_nothing()
    ensures { SpellingsChangeNothing }
{}

/// Where the grammar asks for a word of the statements, it is taken alike in any ASCII case.
pub fn keywords_in_any_case()
    ensures { KeywordsInAnyCase }
{}

/// COUNT before `(` is the count in any ASCII case.
pub fn count_in_any_case()
    ensures { CountInAnyCase }
{}

/// Each text in the quotes of strings is that one string, with each quote of the dialect.
pub fn strings_are_one_word()
    ensures { StringsAreOneWord }
{
    lexemes_go_on();
    texts_are_read();
}

/// Each name in the quotes of names is that one name.
pub fn quoted_names_are_one_word()
    ensures { QuotedNamesAreOneWord }
{
    lexemes_go_on();
    names_are_read();
}

/// What the escapes of strings in mysql stand for.
pub fn escapes_are_read()
    ensures { EscapesAreRead }
{
    lexemes_go_on();
}

/// In mysql a backslash says nothing before a character that makes no escape with it.
pub fn other_backslashes_fall_away()
    ensures { OtherBackslashesFallAway }
{
    lexemes_go_on();
}

/// NOT binds tighter than AND, and AND tighter than OR; AND and OR bind to the left.
pub fn not_and_or_bind_in_turn()
    ensures { NotAndOrBindInTurn }
{
    lexemes_go_on();
    names_are_read();
    texts_are_read();
    fixed_reads_back();
    spells_gives_number_of();
}

/// In a test each name may stand in its quotes or, where it is no reserved word, without.
pub fn quotes_change_no_test()
    ensures { QuotesChangeNoTest }
{}

/// In a query too each name but COUNT may stand in its quotes or without.
pub fn quotes_change_no_query()
    ensures { QuotesChangeNoQuery }
{}
