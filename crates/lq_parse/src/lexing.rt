ghost use Rattle.std.specs.Prelude.{◌≡◌, [], ◌∷◌, ◌++◌, false, IfOk, OnOk};
ghost use Rattle.std.specs.Str.{IsUtf8};
ghost use Rattle.lq_base.specs.Sql.{escapes};
ghost use Rattle.lq_model.specs.SqlParser.{Gives};
ghost use Rattle.lq_model.specs.SqlWord as spec;
ghost use Rattle.lq_parse.specs.Kinds.{AreTexts, AreEven, has_text, words_kept};

use crate::cursor::WordList;
use crate::quoted::{plain_inside, unquoted};
use crate::spelling::{folded, has_text, is_folded, kind_of_word, may_be_name};
use lq_base::{Dialect, Items, LexemeSort, NoMemory, Text};
use lq_model::{ParseFault, Word, WordKind};
use lq_sqllex::{Lexeme, lexeme_at};
use std::alloc::Global;

fn escapes(dialect: Dialect) -> bool
    ensures { result ≡ escapes dialect }
{
    match dialect {
        Dialect::Postgresql => false,
        Dialect::Mysql => true,
    }
}

// Bytes that are known to be UTF-8.
fn text_of(alloc: Global, bytes: &[u8]) -> Result<Text, NoMemory>
    requires { IsUtf8 bytes.now }
    ensures { IfOk result (λ text. text ≡ bytes.now) }
{
    match str::from_utf8(bytes) {
        Ok(text) => Text::new(alloc, text),
        Err(_) => unreachable!(),
    }
}

fn with_text(alloc: Global, kind: WordKind, bytes: &[u8]) -> Result<Word, NoMemory>
    requires { IsUtf8 bytes.now }
    ensures { IfOk result (λ it. it ≡ spec.with_text kind bytes.now) }
{
    let text = text_of(alloc, bytes)?;
    Ok(Word { kind, text })
}

fn bare(alloc: Global, kind: WordKind) -> Result<Word, NoMemory>
    ensures { IfOk result (λ it. it ≡ spec.bare kind) }
{
    let text = Text::new(alloc, "")?;
    Ok(Word { kind, text })
}

fn unquoted_word(
    alloc: Global,
    dialect: Dialect,
    kind: WordKind,
    bytes: &[u8],
) -> Result<Word, NoMemory>
    requires { AreTexts (spec.unquoted_word kind (spec.folded dialect bytes.now) ∷ []) }
    ensures { IfOk result (λ it. it ≡ spec.unquoted_word kind (spec.folded dialect bytes.now)) }
{
    if !may_be_name(kind) {
        return bare(alloc, kind);
    }
    if is_folded(dialect, bytes) {
        return with_text(alloc, kind, bytes);
    }
    let name = folded(alloc, dialect, bytes)?;
    with_text(alloc, kind, name.as_slice())
}

fn quoted_word(
    alloc: Global,
    kind: WordKind,
    escaping: bool,
    bytes: &[u8],
) -> Result<Word, NoMemory>
    requires { IsUtf8 (spec.unquoted escaping bytes.now) }
    ensures { IfOk result (λ it. it ≡ spec.with_text kind (spec.unquoted escaping bytes.now)) }
{
    if let Some(text) = plain_inside(escaping, bytes) {
        return with_text(alloc, kind, text);
    }
    let text = unquoted(alloc, escaping, bytes)?;
    with_text(alloc, kind, text.as_slice())
}

// Appends a word, as its kind and its text, if it may have one.
fn keep(word: Word, kinds: &mut Items<WordKind>, texts: &mut Items<Text>) -> Result<(), NoMemory>
    requires text { has_text word.kind ≡ false → word.text ≡ [] }
    requires even { AreEven kinds.old texts.old }
    ensures even { OnOk result (AreEven kinds.new texts.new) }
    ensures words { OnOk result
        (words_kept kinds.new texts.new ≡ words_kept kinds.old texts.old ++ word ∷ []) }
{
    let Word { kind, text } = word;
    kinds.push(kind)?;
    if has_text(kind) {
        texts.push(text)?;
    }
    Ok(())
}

// Appends the word that a lexeme is, if it is one.
fn push_word(
    alloc: Global,
    dialect: Dialect,
    sort: LexemeSort,
    bytes: &[u8],
    kinds: &mut Items<WordKind>,
    texts: &mut Items<Text>,
) -> Result<(), NoMemory>
    requires utf8 { AreTexts (spec.words_of dialect sort bytes.now) }
    requires even { AreEven kinds.old texts.old }
    ensures even { OnOk result (AreEven kinds.new texts.new) }
    ensures words { OnOk result (words_kept kinds.new texts.new
        ≡ words_kept kinds.old texts.old ++ spec.words_of dialect sort bytes.now) }
{
    let word = match sort {
        LexemeSort::Blank | LexemeSort::LineComment | LexemeSort::BlockComment => return Ok(()),
        LexemeSort::Name => quoted_word(alloc, WordKind::Quoted, false, bytes)?,
        LexemeSort::Text => quoted_word(alloc, WordKind::Text, escapes(dialect), bytes)?,
        LexemeSort::Number => with_text(alloc, WordKind::Number, bytes)?,
        LexemeSort::Word => {
            unquoted_word(alloc, dialect, kind_of_word(WordKind::Plain, bytes), bytes)?
        }
        LexemeSort::Mark => bare(alloc, kind_of_word(WordKind::Unknown, bytes))?,
    };
    keep(word, kinds, texts)
}

/// The words of a text, which are its lexemes without blanks and comments. `NotSql` exactly where a string, quoted name or comment is not closed.
pub fn words(alloc: Global, dialect: Dialect, text: &[u8]) -> Result<WordList, ParseFault>
    requires { IsUtf8 text.now }
    ensures { Gives (spec.words dialect text.now) result }
{
    // Room for most statements, so that it need not grow.
    let mut kinds = Items::from_vec(Vec::with_capacity(alloc, text.len().min(64))?);
    let mut texts = Items::from_vec(Vec::with_capacity(alloc, text.len().min(16))?);
    let mut rest = text;
    while !rest.is_empty() {
        let Some(lexeme) = lexeme_at(dialect, rest) else {
            return Err(ParseFault::NotSql);
        };
        push_word(
            alloc,
            dialect,
            lexeme.sort,
            lexeme.bytes,
            &mut kinds,
            &mut texts,
        )?;
        rest = lexeme.rest;
    }
    Ok(WordList::new(kinds, texts))
}
