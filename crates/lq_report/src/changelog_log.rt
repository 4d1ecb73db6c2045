ghost use Rattle.std.specs.Prelude.{◌≡◌, ◌++◌, OnOk};
ghost use Rattle.lq_report.specs.Output.{no_file_line, file_fault_line, line_fault_line, key_fault_line, dialect_fault_line};

use crate::log_line::{append_line, append_parts};
use crate::parts::append_counted;
use lq_base::{Dialect, NoMemory, Text};
use std::alloc::Global;

/// Appends the line for a file of the changelog that is not there.
#[tactic(auto, unfolding(crate::specs::Output::no_file_line))]
pub fn append_no_file(alloc: Global, path: &str, to: &mut Text) -> Result<(), NoMemory>
    ensures { OnOk result (to.new ≡ to.old ++ no_file_line path.now) }
{
    append_parts(alloc, &["changelog fault: no file ", path], to)
}

/// Appends the line for a file of the changelog of which `what` is wrong.
#[tactic(auto, unfolding(crate::specs::Output::file_fault_line))]
pub fn append_file_fault(
    alloc: Global,
    path: &str,
    what: &str,
    to: &mut Text,
) -> Result<(), NoMemory>
    ensures { OnOk result (to.new ≡ to.old ++ file_fault_line path.now what.now) }
{
    append_parts(alloc, &["changelog fault: ", path, ": ", what], to)
}

/// Appends the line for a line of a file, counted from 1, with which the file is none of its format.
#[tactic(auto, unfolding(crate::specs::Output::line_fault_line))]
pub fn append_line_fault(
    alloc: Global,
    path: &str,
    line: u64,
    to: &mut Text,
) -> Result<(), NoMemory>
    ensures { OnOk result (to.new ≡ to.old ++ line_fault_line path.now line) }
{
    let mut text = Text::new(alloc, "changelog fault: ")?;
    text.push_str(path)?;
    append_counted(": line ", line, "", &mut text)?;
    append_line(alloc, text.as_str(), to)
}

/// Appends the line for a place in a file's tree, and the rule that does not hold there.
#[tactic(auto, unfolding(crate::specs::Output::key_fault_line))]
pub fn append_key_fault(
    alloc: Global,
    path: &str,
    place: &str,
    rule: &str,
    to: &mut Text,
) -> Result<(), NoMemory>
    ensures { OnOk result (to.new ≡ to.old ++ key_fault_line path.now place.now rule.now) }
{
    append_parts(
        alloc,
        &["changelog fault: ", path, ": ", place, ": ", rule],
        to,
    )
}

/// Appends the line for a place in a file's tree where something stands that is not for the dialect.
#[tactic(auto, unfolding(crate::specs::Output::dialect_fault_line))]
pub fn append_dialect_fault(
    alloc: Global,
    path: &str,
    place: &str,
    dialect: Dialect,
    to: &mut Text,
) -> Result<(), NoMemory>
    ensures { OnOk result (to.new ≡ to.old ++ dialect_fault_line path.now place.now dialect) }
{
    let mut line = Text::new(alloc, "changelog fault: ")?;
    line.push_all(&[path, ": ", place, ": not for "])?;
    line.push_str(dialect.text())?;
    append_line(alloc, line.as_str(), to)
}
