ghost use Rattle.lq_cli.specs.Job.{Gives};
ghost use Rattle.lq_cli.specs.Line.{by_count, only_target, to_date, to_tag};

use crate::chosen::Chosen;
use crate::fault::WordsFault;
use crate::values::{number_from, tag_of};
use lq_base::{Target, Text, moment_of};
use std::alloc::Global;

/// Back to the row of a tag.
#[tactic(auto, unfolding(crate::specs::Line::to_tag))]
pub fn to_tag(alloc: Global, text: &str) -> Result<Target, WordsFault>
    ensures { Gives (to_tag text.now) result }
{
    match tag_of(text) {
        Some(tag) => Ok(Target::Tag(Text::new(alloc, tag)?)),
        None => Err(WordsFault::Usage),
    }
}

/// So many rows back.
#[tactic(auto, unfolding(crate::specs::Line::by_count))]
pub fn by_count(text: &str) -> Result<Target, WordsFault>
    ensures { Gives (by_count text.now) result }
{
    match number_from(0, 4_294_967_295, text) {
        Some(count) => Ok(Target::Count(count as u32)),
        None => Err(WordsFault::Usage),
    }
}

/// Back to a moment.
#[tactic(auto, unfolding(crate::specs::Line::to_date))]
pub fn to_date(text: &str) -> Result<Target, WordsFault>
    ensures { Gives (to_date text.now) result }
{
    match moment_of(text.as_bytes()) {
        Some(date) => Ok(Target::Date(date)),
        None => Err(WordsFault::Usage),
    }
}

/// Back to a tag, by a count or back to a moment, where exactly one of the three is given.
#[tactic(auto, unfolding(crate::specs::Line::only_target))]
pub fn only_target(alloc: Global, given: &Chosen) -> Result<Target, WordsFault>
    ensures { Gives (only_target given.now) result }
{
    match (
        given.value("tag"),
        given.value("count"),
        given.value("date"),
    ) {
        (Some(text), None, None) => to_tag(alloc, text),
        (None, Some(text), None) => by_count(text),
        (None, None, Some(text)) => to_date(text),
        _ => Err(WordsFault::Usage),
    }
}
