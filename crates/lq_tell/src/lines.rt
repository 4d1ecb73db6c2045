ghost use Rattle.std.specs.List.{flat_map};
ghost use Rattle.std.specs.Option.{ForSome, option_copied};
ghost use Rattle.std.specs.Prelude.{◌≡◌, ◌++◌, IfOk, IsTrue, OnOk};
ghost use Rattle.lq_base.specs.Moment.{IsMoment};
ghost use Rattle.lq_report.specs.Output.{fixed_line, locked_lines};
ghost use Rattle.lq_tell.specs.Lines.{fault_line, halted_at, no_target_line, own_line, status_lines, warned_at, warning_line, warning_lines};

use crate::status::Status;
use lq_base::{Identity, Lock, NoMemory, Text, Why, is_moment};
use lq_faultlog::append_load_fault;
use lq_report::{
    FixedLine, append_busy, append_changed, append_damaged, append_full, append_halted,
    append_locked, append_no_tag, append_not_reversible, append_not_writable, append_refused,
    append_twice, append_warning,
};
use lq_turns::Fault;
use std::alloc::Global;

/// The lines of the log for a status; `tag` is the one that a rollback goes back to.
pub fn status_lines(alloc: Global, status: &Status, tag: Option<&str>) -> Result<Text, NoMemory>
    ensures { IfOk result (λ text. text ≡ status_lines (option_copied tag.entry) status.now) }
{
    let mut text = Text::new(alloc, "")?;
    append_status(alloc, status, tag, &mut text)?;
    Ok(text)
}

fn append_status(
    alloc: Global,
    status: &Status,
    tag: Option<&str>,
    to: &mut Text,
) -> Result<(), NoMemory>
    ensures { OnOk result (to.new ≡ to.old ++ status_lines (option_copied tag.entry) status.now) }
{
    match status {
        Status::Done => Ok(()),
        Status::Usage => append_fixed(FixedLine::Usage, to),
        Status::ReadFault => append_fixed(FixedLine::ReadFault, to),
        Status::Changelog(fault) => append_load_fault(alloc, fault, to),
        Status::Invalid(faults) => append_faults(alloc, faults.as_slice(), to),
        Status::Locked(lock) => append_lock(alloc, lock, to),
        Status::Halted { identity, why } => append_halt(alloc, identity, *why, to),
        Status::Refused {
            identity,
            statement,
            kept,
            reason,
        } => append_refused(alloc, identity, *statement, *kept, *reason, to),
        Status::NoTarget => append_no_target(alloc, tag, to),
        Status::NotReversible(of) => append_not_reversible(alloc, of, to),
        Status::NothingToUndo => append_fixed(FixedLine::NothingToUndo, to),
        Status::NotWritable(at) => append_not_writable(alloc, at.as_str(), to),
        Status::DiskFault => append_fixed(FixedLine::DiskFault, to),
        Status::Damaged { at } => append_damaged(*at, to),
        Status::Full { used, next } => append_full(*used, *next, to),
        Status::WriteFault => append_fixed(FixedLine::WriteFault, to),
        Status::OutOfMemory => append_fixed(FixedLine::OutOfMemory, to),
        Status::Busy(session) => append_busy(*session, to),
    }
}

fn append_fixed(line: FixedLine, to: &mut Text) -> Result<(), NoMemory>
    ensures { OnOk result (to.new ≡ to.old ++ fixed_line line) }
{
    to.push_str(line.text())
}

fn append_lock(alloc: Global, lock: &Lock, to: &mut Text) -> Result<(), NoMemory>
    ensures { OnOk result (to.new ≡ to.old ++ locked_lines lock.now) }
{
    if !has_moment(lock) {
        return Err(NoMemory);
    }
    append_locked(alloc, lock, to)
}

/// Whether it was taken at a moment of the calendar, or it is not known when. Each lock of a database is
/// such a one.
pub fn has_moment(lock: &Lock) -> bool
    ensures { IsTrue result → ForSome lock.now.granted IsMoment }
{
    match lock.granted {
        Some(at) => is_moment(at),
        None => true,
    }
}

fn append_halt(
    alloc: Global,
    place: &Option<Identity>,
    why: Why,
    to: &mut Text,
) -> Result<(), NoMemory>
    ensures { OnOk result (to.new ≡ to.old ++ halted_at place.now why) }
{
    append_halted(alloc, place.as_ref(), why, to)
}

fn append_no_target(alloc: Global, tag: Option<&str>, to: &mut Text) -> Result<(), NoMemory>
    ensures { OnOk result (to.new ≡ to.old ++ no_target_line (option_copied tag.entry)) }
{
    match tag {
        Some(tag) => append_no_tag(alloc, tag, to),
        None => append_fixed(FixedLine::NothingToTag, to),
    }
}

fn append_faults(alloc: Global, faults: &[Fault], to: &mut Text) -> Result<(), NoMemory>
    ensures { OnOk result (to.new ≡ to.old ++ flat_map fault_line faults.now) }
{
    for fault in faults {
        append_fault(alloc, fault, to)?;
    }
    Ok(())
}

fn append_fault(alloc: Global, fault: &Fault, to: &mut Text) -> Result<(), NoMemory>
    ensures { OnOk result (to.new ≡ to.old ++ fault_line fault.now) }
{
    match fault {
        Fault::Twice(of) => append_twice(alloc, of, to),
        Fault::Changed { identity, was, is } => {
            append_changed(alloc, identity, was.as_str(), is.as_str(), to)
        }
    }
}

/// The lines of the log for preconditions that only warn, of which the changelog's own comes first.
pub fn warning_lines(
    alloc: Global,
    own: Option<Why>,
    warned: &[(Option<Identity>, Why)],
) -> Result<Text, NoMemory>
    ensures { IfOk result (λ text. text ≡ warning_lines own warned.now) }
{
    let mut text = Text::new(alloc, "")?;
    append_own(alloc, own, &mut text)?;
    append_warnings(alloc, warned, &mut text)?;
    Ok(text)
}

fn append_own(alloc: Global, own: Option<Why>, to: &mut Text) -> Result<(), NoMemory>
    ensures { OnOk result (to.new ≡ to.old ++ own_line own) }
{
    match own {
        Some(why) => append_warned(alloc, &None, why, to),
        None => Ok(()),
    }
}

fn append_warnings(
    alloc: Global,
    warned: &[(Option<Identity>, Why)],
    to: &mut Text,
) -> Result<(), NoMemory>
    ensures { OnOk result (to.new ≡ to.old ++ flat_map warning_line warned.now) }
{
    for one in warned {
        append_pair(alloc, one, to)?;
    }
    Ok(())
}

fn append_pair(
    alloc: Global,
    warned: &(Option<Identity>, Why),
    to: &mut Text,
) -> Result<(), NoMemory>
    ensures { OnOk result (to.new ≡ to.old ++ warning_line warned.now) }
{
    let (place, why) = warned;
    append_warned(alloc, place, *why, to)
}

fn append_warned(
    alloc: Global,
    place: &Option<Identity>,
    why: Why,
    to: &mut Text,
) -> Result<(), NoMemory>
    ensures { OnOk result (to.new ≡ to.old ++ warned_at place.now why) }
{
    append_warning(alloc, place.as_ref(), why, to)
}
