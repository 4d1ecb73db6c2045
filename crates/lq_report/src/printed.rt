ghost use Rattle.std.specs.List.{flat_map};
ghost use Rattle.std.specs.Prelude.{◌≡◌, ◌++◌, IfOk, OnOk};
ghost use Rattle.lq_report.specs.Output.{heading, statement_line, printed_text, sql_text};

use crate::parts::append_named;
use lq_base::{NoMemory, Printed, Text};
use std::alloc::Global;

fn heading(undo: bool) -> &'static str
    ensures { result.now ≡ heading undo }
{
    if undo {
        "-- Rollback "
    } else {
        "-- Changeset "
    }
}

#[tactic(auto, unfolding(crate::specs::Output::statement_line))]
fn append_statement(text: &str, to: &mut Text) -> Result<(), NoMemory>
    ensures { OnOk result (to.new ≡ to.old ++ statement_line text.now) }
{
    to.push_all(&[text, ";\n"])
}

fn append_statements(texts: &[Text], to: &mut Text) -> Result<(), NoMemory>
    ensures { OnOk result (to.new ≡ to.old ++ flat_map statement_line texts.now) }
{
    for text in texts {
        append_statement(text.as_str(), to)?;
    }
    Ok(())
}

#[tactic(auto, unfolding(crate::specs::Output::printed_text))]
fn append_printed(undo: bool, printed: &Printed, to: &mut Text) -> Result<(), NoMemory>
    ensures { OnOk result (to.new ≡ to.old ++ printed_text undo printed.now) }
{
    append_named(heading(undo), &printed.identity, "\n", to)?;
    append_statements(printed.texts.as_slice(), to)
}

/// What `update-sql` writes, or with `undo` what `rollback-sql` writes: for each changeset a comment
/// with its identity, and then the text of each statement that was run for it, and a `;`.
#[tactic(auto, unfolding(crate::specs::Output::sql_text))]
pub fn sql_text(alloc: Global, undo: bool, all: &[Printed]) -> Result<Text, NoMemory>
    ensures { IfOk result (λ text. text ≡ sql_text undo all.now) }
{
    let mut text = Text::new(alloc, "")?;
    for printed in all {
        append_printed(undo, printed, &mut text)?;
    }
    Ok(text)
}
