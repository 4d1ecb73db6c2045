ghost use Rattle.std.specs.Option.{ForSome};
ghost use Rattle.std.specs.Prelude.{◌≡◌, ◌++◌, IfOk, OnOk, codes, option_map};
ghost use Rattle.lq_base.specs.Moment.{IsMoment};
ghost use Rattle.lq_report.specs.Output.{held_line, locked_lines, log_line, unrecorded_log_line, unrecorded_line, release_text};
ghost use Rattle.lq_report.specs.Mark.{lock_mark, mark_text};

use crate::log_line::append_line;
use crate::mark::{Mark, append_mark, mark_of};
use lq_base::{Lock, NoMemory, Text};
use lq_words::append_held;
use std::alloc::Global;

fn mark_in(lock: &Lock) -> Option<Mark<'_>>
    ensures { option_map (λ mark. (mark.identity.now, mark.form, mark.statement.now)) result
        ≡ lock_mark lock.now }
{
    match &lock.by {
        Some(by) => mark_of(by.as_str()),
        None => None,
    }
}

fn append_mark_log(alloc: Global, mark: &Mark, to: &mut Text) -> Result<(), NoMemory>
    ensures { OnOk result
        (to.new
        ≡ to.old
        ++ log_line
        (codes "unrecorded: "
        ++ mark_text
        (mark.now.identity.now, mark.now.form, mark.now.statement.now))) }
{
    let mut text = Text::new(alloc, "")?;
    append_mark("unrecorded: ", mark, "", &mut text)?;
    append_line(alloc, text.as_str(), to)
}

#[tactic(auto, unfolding(crate::specs::Output::unrecorded_log_line))]
fn append_unrecorded_log(alloc: Global, lock: &Lock, to: &mut Text) -> Result<(), NoMemory>
    ensures { OnOk result (to.new ≡ to.old ++ unrecorded_log_line lock.now) }
{
    match mark_in(lock) {
        Some(mark) => append_mark_log(alloc, &mark, to),
        None => Ok(()),
    }
}

fn append_held_log(alloc: Global, lock: &Lock, to: &mut Text) -> Result<(), NoMemory>
    requires { ForSome lock.now.granted IsMoment }
    ensures { OnOk result (to.new ≡ to.old ++ held_line lock.now) }
{
    let mut text = Text::new(alloc, "")?;
    append_held("locked by ", lock, "", &mut text)?;
    append_line(alloc, text.as_str(), to)
}

/// Appends the line for a lock that is held, and one for its mark, where it has one.
#[tactic(auto, unfolding(crate::specs::Output::locked_lines))]
pub fn append_locked(alloc: Global, lock: &Lock, to: &mut Text) -> Result<(), NoMemory>
    requires { ForSome lock.now.granted IsMoment }
    ensures { OnOk result (to.new ≡ to.old ++ locked_lines lock.now) }
{
    append_held_log(alloc, lock, to)?;
    append_unrecorded_log(alloc, lock, to)
}

#[tactic(auto, unfolding(crate::specs::Output::unrecorded_line))]
fn append_unrecorded(lock: &Lock, to: &mut Text) -> Result<(), NoMemory>
    ensures { OnOk result (to.new ≡ to.old ++ unrecorded_line lock.now) }
{
    match mark_in(lock) {
        Some(mark) => append_mark("unrecorded: ", &mark, "\n", to),
        None => Ok(()),
    }
}

/// What `release-locks` writes: that the lock was free, or who held it and since when, and its mark,
/// where it has one.
pub fn release_text(alloc: Global, freed: Option<&Lock>) -> Result<Text, NoMemory>
    requires { ForSome freed (λ lock. ForSome lock.now.granted IsMoment) }
    ensures { IfOk result (λ text. text ≡ release_text freed.entry) }
{
    let mut text = Text::new(alloc, "")?;
    match freed {
        Some(lock) => {
            append_held("lock released: held by ", lock, "\n", &mut text)?;
            append_unrecorded(lock, &mut text)?;
        }
        None => text.push_str("lock free\n")?,
    }
    Ok(text)
}
