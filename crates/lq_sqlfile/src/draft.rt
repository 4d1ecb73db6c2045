ghost use Rattle.std.specs.Prelude.{◌≡◌, [], ◌∷◌, ◌++◌, IfOk, option_map, unwrap_or};
ghost use Rattle.std.specs.List.{list_all};
ghost use Rattle.lq_base.specs.Kind.{is_blank};
ghost use Rattle.lq_sqlfile.specs.Words.{value_of};
ghost use Rattle.lq_sqlfile.specs.File.{begun, conditions_value, joined_with, with_line, with_part, closed};

use crate::cuts::without_blanks;
use crate::file::SqlSet;
use crate::part::{Heading, Part};
use lq_base::{Items, NoMemory, Text, both};
use std::alloc::Global;

/// A changeset with its lines so far.
pub struct Draft {
    pub line: u32,
    pub heading: Heading,
    pub comment: Option<Text>,
    pub conditions: Option<Items<(Text, Text)>>,
    pub checks: Items<(Text, Text)>,
    /// Up to the last line that is not blank.
    pub body: Text,
    /// What stands between that line and the next one.
    pub gap: Text,
    pub rollback: Option<Text>,
}

// Written out, so that each place that lets one go is one call.
impl Drop for Draft {
    fn drop(self) {
        let Draft {
            line: _,
            heading,
            comment,
            conditions,
            checks,
            body,
            gap,
            rollback,
        } = self;
        drop(heading);
        drop(comment);
        drop(conditions);
        drop(checks);
        drop(body);
        drop(gap);
        drop(rollback);
    }
}

/// Whether the text is of blanks alone.
pub fn are_blanks(text: &str) -> bool
    ensures { result ≡ list_all is_blank text.now }
{
    without_blanks(text).is_empty()
}

// The first value of a name.
fn found<'a>(name: &str, pairs: &'a [(Text, Text)]) -> Option<&'a Text>
    ensures { option_map (λ value. value.now) result ≡ value_of name.now pairs.now }
{
    for pair in pairs {
        if pair.0.as_str() == name {
            return Some(&pair.1);
        }
    }
    None
}

/// The value of a name.
pub fn value_of(alloc: Global, name: &str, pairs: &[(Text, Text)]) -> Result<Option<Text>, NoMemory>
    ensures { IfOk result (λ value. value ≡ value_of name.now pairs.now) }
{
    match found(name, pairs) {
        Some(value) => Ok(Some(value.copy(alloc)?)),
        None => Ok(None),
    }
}

fn conditions_value(
    alloc: Global,
    name: &str,
    conditions: &Option<Items<(Text, Text)>>,
) -> Result<Option<Text>, NoMemory>
    ensures { IfOk result (λ found. found ≡ conditions_value name.now conditions.now) }
{
    match conditions {
        Some(pairs) => value_of(alloc, name, pairs.as_slice()),
        None => Ok(None),
    }
}

fn text_or_empty(alloc: Global, text: Option<Text>) -> Result<Text, NoMemory>
    ensures { IfOk result (λ found. found ≡ unwrap_or text []) }
{
    match text {
        Some(text) => Ok(text),
        None => Text::new(alloc, ""),
    }
}

fn joined_with(before: Option<Text>, text: Text) -> Result<Text, NoMemory>
    ensures { IfOk result (λ all. all ≡ joined_with before text) }
{
    match before {
        Some(all) => with_next(all, text.as_str()),
        None => Ok(text),
    }
}

fn with_next(mut all: Text, text: &str) -> Result<Text, NoMemory>
    ensures { IfOk result (λ more. more ≡ all ++ (10 ∷ text.now)) }
{
    all.push_str("\n")?;
    all.push_str(text)?;
    Ok(all)
}

impl Draft {
    pub fn new(alloc: Global, line: u32, heading: Heading) -> Result<Draft, NoMemory>
        ensures { IfOk result (λ draft. draft ≡ begun line heading) }
    {
        let (body, gap) = both(Text::new(alloc, ""), Text::new(alloc, ""))?;
        Ok(Draft {
            line,
            heading,
            comment: None,
            conditions: None,
            checks: Items::new(alloc),
            body,
            gap,
            rollback: None,
        })
    }

    #[tactic(auto, unfolding(crate::specs::File::with_line))]
    // A line of the body. Blank lines wait for one that is not.
    fn with_line(mut self, alloc: Global, line: &str) -> Result<Draft, NoMemory>
        ensures { IfOk result (λ draft. draft ≡ with_line line.now self) }
    {
        if are_blanks(line) {
            self.gap.push_str(line)?;
            self.gap.push_str("\n")?;
            return Ok(self);
        }
        self.body.push_str(self.gap.as_str())?;
        self.body.push_str(line)?;
        // Mostly nothing but the end of the line before stood between.
        if self.gap.as_str() == "\n" {
            return Ok(self);
        }
        self.gap = Text::new(alloc, "\n")?;
        Ok(self)
    }

    /// The changeset with one part more, if it may have it.
    pub fn with_part(mut self, alloc: Global, part: Part) -> Result<Option<Draft>, NoMemory>
        ensures { IfOk result (λ draft. draft ≡ with_part part self) }
    {
        match part {
            Part::ChangeSet(_) => Ok(None),
            Part::Comment(text) => {
                if self.comment.is_some() {
                    return Ok(None);
                }
                self.comment = Some(text);
                Ok(Some(self))
            }
            Part::Conditions(pairs) => {
                if self.conditions.is_some() {
                    return Ok(None);
                }
                self.conditions = Some(pairs);
                Ok(Some(self))
            }
            Part::Check(expected, query) => {
                self.checks.push((expected, query))?;
                Ok(Some(self))
            }
            Part::Rollback(text) => {
                let before = self.rollback.take();
                self.rollback = Some(joined_with(before, text)?);
                Ok(Some(self))
            }
            Part::Note => Ok(Some(self)),
            Part::Body(line) => Ok(Some(self.with_line(alloc, line.as_str())?)),
        }
    }

    /// The changeset without more lines.
    pub fn close(self, alloc: Global) -> Result<SqlSet, NoMemory>
        ensures { IfOk result (λ set. set ≡ closed self) }
    {
        let on_fail = conditions_value(alloc, "onFail", &self.conditions);
        let on_error = conditions_value(alloc, "onError", &self.conditions);
        let (on_fail, on_error) = both(on_fail, on_error)?;
        let Draft {
            line,
            heading,
            comment,
            conditions,
            checks,
            body,
            gap,
            rollback,
        } = self;
        drop(conditions);
        drop(gap);
        let comment = text_or_empty(alloc, comment)?;
        Ok(SqlSet {
            line,
            author: heading.author,
            id: heading.id,
            attributes: heading.attributes,
            comment,
            on_fail,
            on_error,
            checks,
            body,
            rollback,
        })
    }
}
