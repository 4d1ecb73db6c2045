ghost use Rattle.std.specs.Prelude.{◌≡◌, ◌++◌, OnOk};
ghost use Rattle.lq_report.specs.Output.{twice_line, changed_line};

use crate::log_line::append_line;
use crate::parts::append_named;
use lq_base::{Identity, NoMemory, Text};
use std::alloc::Global;

/// Appends the line for a changeset with the identity of an earlier one.
#[tactic(auto, unfolding(crate::specs::Output::twice_line))]
pub fn append_twice(alloc: Global, identity: &Identity, to: &mut Text) -> Result<(), NoMemory>
    ensures { OnOk result (to.new ≡ to.old ++ twice_line identity.now) }
{
    let mut text = Text::new(alloc, "duplicate changeset ")?;
    identity.append_to(&mut text)?;
    append_line(alloc, text.as_str(), to)
}

/// Appends the line for a changeset whose row has the checksum `was`, and which now has `is`.
#[tactic(auto, unfolding(crate::specs::Output::changed_line))]
pub fn append_changed(
    alloc: Global,
    identity: &Identity,
    was: &str,
    is: &str,
    to: &mut Text,
) -> Result<(), NoMemory>
    ensures { OnOk result (to.new ≡ to.old ++ changed_line identity.now was.now is.now) }
{
    let mut text = Text::new(alloc, "checksum of ")?;
    append_named("", identity, " was ", &mut text)?;
    text.push_all(&[was, ", is ", is])?;
    append_line(alloc, text.as_str(), to)
}
