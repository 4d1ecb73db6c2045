ghost use Rattle.std.specs.Prelude.{◌≡◌, length};
ghost use Rattle.lq_model.specs.SqlParser as spec;
ghost use Rattle.lq_model.specs.SqlParser.{Reads};
ghost use Rattle.lq_parse.specs.Kinds.{words_kept, text_if, texts_behind};

use crate::spelling::{has_text, same_kind};
use lq_base::{Items, Text};
use lq_model::{ParseFault, WordKind};
use std::marker::Model;

/// The words of a text. Marks and reserved words have no text, so the kinds stand by themselves, a
/// byte each, and the texts of the other words by themselves.
#[derive(Drop)]
pub struct WordList {
    kinds: Items<WordKind>,
    texts: Items<Text>,
}

impl Model for WordList {
    ghost use Rattle.std.specs.Prelude.{List};
    ghost use Rattle.lq_model.specs.declared.word.Word.{Word};
    ghost use Rattle.lq_parse.specs.Kinds.{words_kept};

    ghost Value = { List Word };

    ghost view = { λ w. words_kept w.kinds w.texts };
}

impl WordList {
    /// The words of these kinds, with these texts.
    pub fn new(kinds: Items<WordKind>, texts: Items<Text>) -> WordList
        ensures { result ≡ words_kept kinds texts }
    {
        WordList { kinds, texts }
    }
}

/// A place among the words of a text: those from there on.
#[derive(Drop)]
pub struct Words<'a> {
    kinds: &'a [WordKind],
    texts: &'a [Text],
}

impl<'a> Model for Words<'a> {
    ghost use Rattle.std.specs.Prelude.{List};
    ghost use Rattle.lq_model.specs.declared.word.Word.{Word};
    ghost use Rattle.lq_parse.specs.Kinds.{words_kept};

    ghost Value = { List Word };

    ghost view = { λ w. words_kept w.kinds.now w.texts.now };
}

// The first text, for a word that may have one.
fn text_if(some: bool, texts: &[Text]) -> &str
    ensures { result.now ≡ text_if some texts.now }
{
    match texts {
        [first, ..] if some => first.as_str(),
        _ => "",
    }
}

fn texts_behind(some: bool, texts: &[Text]) -> &[Text]
    ensures { result.now ≡ texts_behind some texts.now }
{
    match texts {
        [_, rest @ ..] if some => rest,
        _ => texts,
    }
}

impl<'a> Words<'a> {
    /// The place before the first of some words.
    pub fn new(words: &'a WordList) -> Words<'a>
        ensures { result ≡ words.now }
    {
        Words {
            kinds: words.kinds.as_slice(),
            texts: words.texts.as_slice(),
        }
    }

    /// The kind of the next word, `End` where none is left.
    pub fn peek(&self) -> WordKind
        ensures { result ≡ spec.kind self.now }
    {
        match self.kinds {
            [first, ..] => *first,
            [] => WordKind::End,
        }
    }

    /// How many words are left.
    pub fn left(&self) -> usize
        ensures { result ≡ length self.now }
    {
        self.kinds.len()
    }

    /// Goes on behind the next word. Where none is left, nothing changes.
    pub fn skip(&mut self)
        ensures { self.new ≡ spec.next self.old }
    {
        if let [first, rest @ ..] = self.kinds {
            self.texts = texts_behind(has_text(*first), self.texts);
            self.kinds = rest;
        }
    }

    fn text(&self) -> &'a str
        ensures { result.now ≡ spec.text self.now }
    {
        match self.kinds {
            [first, ..] => text_if(has_text(*first), self.texts),
            [] => "",
        }
    }

    /// The text of the next word, which is taken; empty where none is left.
    pub fn take(&mut self) -> &'a str
        ensures text { result.now ≡ spec.text self.old }
        ensures rest { self.new ≡ spec.next self.old }
    {
        let text = self.text();
        self.skip();
        text
    }

    /// Whether a word of this kind comes next.
    #[tactic(auto, unfolding(lq_model::specs::SqlParser::sees))]
    pub fn sees(&self, kind: WordKind) -> bool
        ensures { result ≡ spec.sees kind self.now }
    {
        same_kind(self.peek(), kind)
    }

    /// Whether a word of this kind comes after the next one.
    #[tactic(auto, unfolding(lq_model::specs::SqlParser::sees))]
    pub fn sees_second(&self, kind: WordKind) -> bool
        ensures { result ≡ spec.sees kind (spec.next self.now) }
    {
        match self.kinds {
            [_, second, ..] => same_kind(*second, kind),
            _ => same_kind(WordKind::End, kind),
        }
    }

    /// Takes a word of this kind, if it comes next, and says whether it did.
    #[tactic(auto, unfolding(lq_model::specs::SqlParser::after))]
    pub fn eat(&mut self, kind: WordKind) -> bool
        ensures found { result ≡ spec.sees kind self.old }
        ensures rest { self.new ≡ spec.after kind self.old }
    {
        let found = self.sees(kind);
        if found {
            self.skip();
        }
        found
    }

    /// Takes a word of this kind. `NotSql` where another one comes next.
    #[tactic(auto, unfolding(lq_model::specs::SqlParser::expect, lq_model::specs::SqlParser::after))]
    pub fn expect(&mut self, kind: WordKind) -> Result<(), ParseFault>
        ensures { Reads (spec.expect kind self.old) result self.new }
    {
        if self.eat(kind) {
            Ok(())
        } else {
            Err(ParseFault::NotSql)
        }
    }
}
