ghost use Rattle.std.specs.Prelude.{◌≡◌, ◌++◌, IfOk, OnOk, option_map};
ghost use Rattle.lq_report.specs.Mark.{at_last_bar, is_count, statement_of, mark_of, mark_text};

use lq_base::{NoMemory, Text, is_digits};
use std::alloc::Global;

/// What a marked statement is: a changeset's own, one that takes a row back, or one that takes back a statement without a row.
#[derive(Clone, Copy)]
pub enum Form {
    Run,
    Undo,
    Back,
}

/// What LOCKEDBY tells of a changeset that is not one transaction: the statement that it was at.
#[derive(Clone, Copy)]
pub struct Mark<'a> {
    /// The changeset's identity, as `FILE::ID::AUTHOR`.
    pub identity: &'a str,
    /// Whether the statement takes something back, and what.
    pub form: Form,
    /// The statement's number, from 1, in decimal digits.
    pub statement: &'a str,
}

// What stands before the last `|`, and behind it.
fn at_last_bar(text: &str) -> Option<(&str, &str)>
    ensures { option_map (λ parts. (parts.0.now, parts.1.now)) result ≡ at_last_bar text.now }
{
    text.rsplit_once('|')
}

fn is_count(text: &str) -> bool
    ensures { result ≡ is_count text.now }
{
    is_digits(text.as_bytes()) && !text.starts_with('0')
}

fn statement_of(text: &str) -> (Form, &str)
    ensures form { result.0 ≡ (statement_of text.now).0 }
    ensures number { result.1.now ≡ (statement_of text.now).1 }
{
    match text.strip_prefix("undo ") {
        Some(number) => (Form::Undo, number),
        None => match text.strip_prefix("back ") {
            Some(number) => (Form::Back, number),
            None => (Form::Run, text),
        },
    }
}

/// The mark of a LOCKEDBY. None where it is no `WHO|IDENTITY|K`, `WHO|IDENTITY|undo K` or
/// `WHO|IDENTITY|back K`, in which WHO has no `|` and K is a whole number from 1 in decimal digits without leading zeros.
#[tactic(auto, unfolding(crate::specs::Mark::mark_of))]
pub fn mark_of(by: &str) -> Option<Mark<'_>>
    ensures { option_map (λ mark. (mark.identity.now, mark.form, mark.statement.now)) result
        ≡ mark_of by.now }
{
    let (_, marked) = by.split_once('|')?;
    let (identity, end) = at_last_bar(marked)?;
    let (form, statement) = statement_of(end);
    if !is_count(statement) {
        return None;
    }
    Some(Mark {
        identity,
        form,
        statement,
    })
}

/// Appends `IDENTITY, statement K`, or with `undo statement` or `back statement`, between two texts.
pub(crate) fn append_mark(
    before: &str,
    mark: &Mark,
    after: &str,
    to: &mut Text,
) -> Result<(), NoMemory>
    ensures { OnOk result
        (to.new
        ≡ to.old
        ++
        (before.now
        ++
        (mark_text
        (mark.now.identity.now, mark.now.form, mark.now.statement.now)
        ++ after.now))) }
{
    let kind = match mark.form {
        Form::Run => ", statement ",
        Form::Undo => ", undo statement ",
        Form::Back => ", back statement ",
    };
    to.push_all(&[before, mark.identity, kind, mark.statement, after])
}

/// `IDENTITY, statement K`, or with `undo statement` or `back statement`.
pub fn mark_text(alloc: Global, mark: &Mark) -> Result<Text, NoMemory>
    ensures { IfOk result (λ text.
        text ≡ mark_text (mark.now.identity.now, mark.now.form, mark.now.statement.now)) }
{
    let mut text = Text::new(alloc, "")?;
    append_mark("", mark, "", &mut text)?;
    Ok(text)
}
