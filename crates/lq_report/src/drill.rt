ghost use Rattle.std.specs.Prelude.{◌≡◌, ◌++◌, IfOk, OnOk};
ghost use Rattle.lq_report.specs.Output.{drill_text, drilled_from, drilled_line, ending_text};

use crate::parts::append_counted;
use lq_base::{Command, NoMemory, Text};
use lq_words::command_word;
use std::alloc::Global;

/// How far a command line of a drill came.
#[derive(Drop)]
pub struct Drilled {
    pub command: Command,
    /// The status that the command ended with, if it ended.
    pub status: Option<u8>,
}

fn append_ending(status: Option<u8>, to: &mut Text) -> Result<(), NoMemory>
    ensures { OnOk result (to.new ≡ to.old ++ ending_text status) }
{
    match status {
        Some(status) => append_counted(": status ", u64::from(status), "\n", to),
        None => to.push_str(": unfinished\n"),
    }
}

#[tactic(auto, unfolding(crate::specs::Output::drilled_line))]
fn append_drilled(number: u64, drilled: &Drilled, to: &mut Text) -> Result<(), NoMemory>
    ensures { OnOk result (to.new ≡ to.old ++ drilled_line number drilled.now) }
{
    append_counted("", number, " ", to)?;
    to.push_str(command_word(&drilled.command))?;
    append_ending(drilled.status, to)
}

fn append_all(all: &[Drilled], to: &mut Text) -> Result<(), NoMemory>
    ensures { OnOk result (to.new ≡ to.old ++ drilled_from 1 all.now) }
{
    for index in 0..all.len() {
        append_drilled(index as u64 + 1, &all[index], to)?;
    }
    Ok(())
}

/// What `drill` writes: a line for each command line, in order.
#[tactic(auto, unfolding(crate::specs::Output::drill_text))]
pub fn drill_text(alloc: Global, all: &[Drilled]) -> Result<Text, NoMemory>
    ensures { IfOk result (λ text. text ≡ drill_text all.now) }
{
    let mut text = Text::new(alloc, "")?;
    append_all(all, &mut text)?;
    Ok(text)
}
