ghost use Rattle.std.specs.Prelude.{◌≡◌, IfOk, option_map};
ghost use Rattle.lq_sqlfile.specs.Words.{attribute_words, directive_of, is_other_condition, is_word, plain_part};
ghost use Rattle.lq_sqlfile.specs.Lines.{attributes_in, marked, heading, conditions, check, meaning, part_of, behind_this, header, header_rest};

use crate::cuts::{after, behind_word, cut_at, cut_word, is_word, without_blanks};
use crate::draft::value_of;
use crate::pair::{attributes, pair};
use crate::part::{Directive, Heading, Part};
use lq_base::{Items, NoMemory, Text};
use std::alloc::Global;

// Behind the blanks, `--` and the blanks that follow, if the line begins so.
#[tactic(auto, unfolding(crate::specs::Lines::marked))]
fn marked(line: &str) -> Option<&str>
    ensures { option_map (λ rest. rest.now) result ≡ marked line.now }
{
    let rest = after("--", without_blanks(line))?;
    Some(without_blanks(rest))
}

// The same word in any ASCII case.
#[tactic(auto, unfolding(crate::specs::Words::is_word))]
fn are_same(bytes: &[u8], word: &str) -> bool
    ensures { result ≡ is_word bytes.now word.now }
{
    bytes.eq_ignore_ascii_case(word.as_bytes())
}

fn is_other_condition(name: &str) -> bool
    ensures { result ≡ is_other_condition name.now }
{
    let bytes = name.as_bytes();
    bytes.len() >= 12 && are_same(&bytes[..12], "precondition")
}

#[tactic(auto, unfolding(crate::specs::Words::directive_of))]
fn directive_of(name: &str) -> Option<Directive>
    ensures { result ≡ directive_of name.now }
{
    if is_word(name, "changeset") {
        Some(Directive::ChangeSet)
    } else if is_word(name, "comment") {
        Some(Directive::Comment)
    } else if is_word(name, "comment:") {
        Some(Directive::Comment)
    } else if is_word(name, "preconditions") {
        Some(Directive::Conditions)
    } else if is_word(name, "precondition-sql-check") {
        Some(Directive::Check)
    } else if is_word(name, "rollback") {
        Some(Directive::Rollback)
    } else if is_other_condition(name) {
        Some(Directive::OtherCondition)
    } else {
        None
    }
}

// The attributes of a heading.
#[tactic(auto, unfolding(crate::specs::Words::attribute_words))]
fn heading_pairs(alloc: Global, text: &str) -> Result<Option<Items<(Text, Text)>>, NoMemory>
    ensures { IfOk result (λ found. found ≡ attributes_in attribute_words text.now) }
{
    let words = [
        "context",
        "contextFilter",
        "labels",
        "dbms",
        "runAlways",
        "runOnChange",
        "failOnError",
        "runInTransaction",
        "logicalFilePath",
        "ignore",
        "splitStatements",
        "endDelimiter",
        "stripComments",
    ];
    attributes(alloc, &words, text)
}

// `AUTHOR:ID name:value ..`
#[tactic(auto, unfolding(crate::specs::Lines::heading))]
fn heading(alloc: Global, text: &str) -> Result<Option<Part>, NoMemory>
    ensures { IfOk result (λ part. part ≡ heading text.now) }
{
    let Some((author, behind)) = cut_at(text, ':') else {
        return Ok(None);
    };
    let (id, _) = cut_word(behind);
    let Some(attributes) = heading_pairs(alloc, behind_word(behind))? else {
        return Ok(None);
    };
    Ok(Some(Part::ChangeSet(Heading {
        author: Text::new(alloc, author)?,
        id: Text::new(alloc, id)?,
        attributes,
    })))
}

// `onFail:X onError:Y`, either or both.
#[tactic(auto, unfolding(crate::specs::Lines::conditions))]
fn conditions(alloc: Global, text: &str) -> Result<Option<Part>, NoMemory>
    ensures { IfOk result (λ part. part ≡ conditions text.now) }
{
    match attributes(alloc, &["onFail", "onError"], text)? {
        Some(given) if !given.is_empty() => Ok(Some(Part::Conditions(given))),
        _ => Ok(None),
    }
}

// `expectedResult:N QUERY`
#[tactic(auto, unfolding(crate::specs::Lines::check))]
fn check(alloc: Global, text: &str) -> Result<Option<Part>, NoMemory>
    ensures { IfOk result (λ part. part ≡ check text.now) }
{
    let Some((name, expected, query)) = pair(text) else {
        return Ok(None);
    };
    if !is_word(name, "expectedResult") {
        return Ok(None);
    }
    let expected = Text::new(alloc, expected)?;
    Ok(Some(Part::Check(expected, Text::new(alloc, query)?)))
}

fn meaning(alloc: Global, directive: Directive, text: &str) -> Result<Option<Part>, NoMemory>
    ensures { IfOk result (λ part. part ≡ meaning directive text.now) }
{
    match directive {
        Directive::ChangeSet => heading(alloc, text),
        Directive::Comment => Ok(Some(Part::Comment(Text::new(alloc, text)?))),
        Directive::Conditions => conditions(alloc, text),
        Directive::Check => check(alloc, text),
        Directive::Rollback => Ok(Some(Part::Rollback(Text::new(alloc, text)?))),
        Directive::OtherCondition => Ok(None),
    }
}

fn plain_part(alloc: Global, line: &str) -> Result<Part, NoMemory>
    ensures { IfOk result (λ part. part ≡ plain_part line.now) }
{
    if after("--", line).is_some() {
        return Ok(Part::Note);
    }
    Ok(Part::Body(Text::new(alloc, line)?))
}

/// What a line says, unless it is a wrong directive.
#[tactic(auto, unfolding(crate::specs::Lines::part_of))]
pub fn part_of(alloc: Global, line: &str) -> Result<Option<Part>, NoMemory>
    ensures { IfOk result (λ part. part ≡ part_of line.now) }
{
    let Some(text) = marked(line) else {
        return Ok(Some(Part::Body(Text::new(alloc, line)?)));
    };
    let (word, _) = cut_word(text);
    match directive_of(word) {
        Some(directive) => meaning(alloc, directive, behind_word(text)),
        None => Ok(Some(plain_part(alloc, line)?)),
    }
}

#[tactic(auto, unfolding(crate::specs::Lines::behind_this))]
fn behind_this<'a>(word: &str, text: &'a str) -> Option<&'a str>
    ensures { option_map (λ rest. rest.now) result ≡ behind_this word.now text.now }
{
    let (first, _) = cut_word(text);
    if !is_word(first, word) {
        return None;
    }
    Some(behind_word(text))
}

/// The logical path that a header names, if the line is a header.
#[tactic(auto, unfolding(crate::specs::Lines::header))]
pub fn header(alloc: Global, line: &str) -> Result<Option<Option<Text>>, NoMemory>
    ensures { IfOk result (λ logical. logical ≡ header line.now) }
{
    let Some(rest) = header_rest(line) else {
        return Ok(None);
    };
    match attributes(alloc, &["logicalFilePath"], rest)? {
        Some(given) => Ok(Some(value_of(alloc, "logicalFilePath", given.as_slice())?)),
        None => Ok(None),
    }
}

fn header_rest(line: &str) -> Option<&str>
    ensures { option_map (λ rest. rest.now) result ≡ header_rest line.now }
{
    let rest = marked(line)?;
    let rest = behind_this("liquibase", rest)?;
    let rest = behind_this("formatted", rest)?;
    behind_this("sql", rest)
}
