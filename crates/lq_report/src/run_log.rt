ghost use Rattle.std.specs.Prelude.{◌≡◌, ◌++◌, ◌==◌, OnOk, length};
ghost use Rattle.lq_report.specs.Output.{warning_line, halted_line, refused_line, no_tag_line, not_reversible_line, not_writable_line, damaged_line, full_line, busy_line, has_file_alone, undoable_text};

use crate::log_line::{append_line, append_parts};
use crate::parts::{append_counted, append_named, append_place, append_why};
use lq_base::{Identity, NoMemory, Reason, Text, Why};
use std::alloc::Global;

/// Appends the line for a precondition that does not hold, where the run goes on. Without an identity
/// it is one of the changelog's own.
#[tactic(auto, unfolding(crate::specs::Output::warning_line))]
pub fn append_warning(
    alloc: Global,
    place: Option<&Identity>,
    why: Why,
    to: &mut Text,
) -> Result<(), NoMemory>
    ensures { OnOk result (to.new ≡ to.old ++ warning_line place.entry why) }
{
    let mut text = Text::new(alloc, "warning: ")?;
    append_place("", place, ": ", &mut text)?;
    append_why(why, &mut text)?;
    append_line(alloc, text.as_str(), to)
}

/// Appends the line for a precondition at which the run halted.
#[tactic(auto, unfolding(crate::specs::Output::halted_line))]
pub fn append_halted(
    alloc: Global,
    place: Option<&Identity>,
    why: Why,
    to: &mut Text,
) -> Result<(), NoMemory>
    ensures { OnOk result (to.new ≡ to.old ++ halted_line place.entry why) }
{
    let mut text = Text::new(alloc, "halted at ")?;
    append_place("", place, ": ", &mut text)?;
    append_why(why, &mut text)?;
    append_line(alloc, text.as_str(), to)
}

/// Appends the line for a statement that was refused. `kept` of the changeset's statements stay.
#[tactic(auto, unfolding(crate::specs::Output::refused_line))]
pub fn append_refused(
    alloc: Global,
    identity: &Identity,
    statement: u64,
    kept: u64,
    reason: Reason,
    to: &mut Text,
) -> Result<(), NoMemory>
    ensures { OnOk result (to.new ≡ to.old ++ refused_line identity.now statement kept reason) }
{
    let mut line = Text::new(alloc, "refused at ")?;
    append_named("", identity, ", statement ", &mut line)?;
    append_counted("", statement, ", ", &mut line)?;
    append_counted("", kept, " kept: ", &mut line)?;
    line.push_str(reason.text())?;
    append_line(alloc, line.as_str(), to)
}

/// Appends the line for a tag that no row has.
#[tactic(auto, unfolding(crate::specs::Output::no_tag_line))]
pub fn append_no_tag(alloc: Global, tag: &str, to: &mut Text) -> Result<(), NoMemory>
    ensures { OnOk result (to.new ≡ to.old ++ no_tag_line tag.now) }
{
    append_parts(alloc, &["no changeset has the tag ", tag], to)
}

/// Appends the line for a changeset that cannot be rolled back.
#[tactic(auto, unfolding(crate::specs::Output::not_reversible_line))]
pub fn append_not_reversible(
    alloc: Global,
    identity: &Identity,
    to: &mut Text,
) -> Result<(), NoMemory>
    ensures { OnOk result (to.new ≡ to.old ++ not_reversible_line identity.now) }
{
    let mut text = Text::new(alloc, "no rollback for ")?;
    append_undoable(identity, &mut text)?;
    append_line(alloc, text.as_str(), to)
}

// A changeset. A mark that names none is an identity with its text for the file, and no more.
fn append_undoable(identity: &Identity, to: &mut Text) -> Result<(), NoMemory>
    ensures { OnOk result (to.new ≡ to.old ++ undoable_text identity.now) }
{
    if has_file_alone(identity) {
        return to.push_str(identity.file.as_str());
    }
    identity.append_to(to)
}

fn has_file_alone(identity: &Identity) -> bool
    ensures { result ≡ has_file_alone identity.now }
{
    is_nothing(&identity.id) && is_nothing(&identity.author)
}

fn is_nothing(text: &Text) -> bool
    ensures { result ≡ (length text.now == 0) }
{
    text.as_str().is_empty()
}

/// Appends the line for what a generated changelog cannot say.
#[tactic(auto, unfolding(crate::specs::Output::not_writable_line))]
pub fn append_not_writable(alloc: Global, at: &str, to: &mut Text) -> Result<(), NoMemory>
    ensures { OnOk result (to.new ≡ to.old ++ not_writable_line at.now) }
{
    append_parts(alloc, &["cannot write ", at], to)
}

/// Appends the line for a database file that is damaged from this byte on.
#[tactic(auto, unfolding(crate::specs::Output::damaged_line))]
pub fn append_damaged(at: u64, to: &mut Text) -> Result<(), NoMemory>
    ensures { OnOk result (to.new ≡ to.old ++ damaged_line at) }
{
    append_counted("liquibase: database damaged at ", at, "\n", to)
}

/// Appends the line for a journal that has no room for the `next` bytes behind the `used` ones.
#[tactic(auto, unfolding(crate::specs::Output::full_line))]
pub fn append_full(used: u64, next: u64, to: &mut Text) -> Result<(), NoMemory>
    ensures { OnOk result (to.new ≡ to.old ++ full_line used next) }
{
    append_counted("liquibase: database full: ", used, " and ", to)?;
    append_counted("", next, " bytes\n", to)
}

/// Appends the line for a runner that needs the database while this session has a transaction open.
#[tactic(auto, unfolding(crate::specs::Output::busy_line))]
pub fn append_busy(session: u32, to: &mut Text) -> Result<(), NoMemory>
    ensures { OnOk result (to.new ≡ to.old ++ busy_line session) }
{
    append_counted("liquibase: busy: session ", u64::from(session), "\n", to)
}
