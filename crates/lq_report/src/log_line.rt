ghost use Rattle.std.specs.List.{flat_map};
ghost use Rattle.std.specs.Prelude.{◌≡◌, ◌++◌, OnOk};
ghost use Rattle.lq_report.specs.Output.{log_line};

use lq_base::{NoMemory, Text};
use lq_words::plain;
use std::alloc::Global;

/// Appends the line of a text.
pub(crate) fn append_line(alloc: Global, text: &str, to: &mut Text) -> Result<(), NoMemory>
    ensures { OnOk result (to.new ≡ to.old ++ log_line text.now) }
{
    let text = plain(alloc, text)?;
    to.push_all(&["liquibase: ", text.as_str(), "\n"])
}

/// Appends the line of a text in parts.
pub(crate) fn append_parts(alloc: Global, parts: &[&str], to: &mut Text) -> Result<(), NoMemory>
    ensures { OnOk result (to.new ≡ to.old ++ log_line (flat_map (λ part. part.now) parts.now)) }
{
    let mut text = Text::new(alloc, "")?;
    text.push_all(parts)?;
    append_line(alloc, text.as_str(), to)
}
