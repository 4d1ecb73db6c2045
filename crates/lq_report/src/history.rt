ghost use Rattle.std.specs.List.{flat_map};
ghost use Rattle.std.specs.Prelude.{◌≡◌, ◌++◌, IfOk, OnOk};
ghost use Rattle.lq_base.specs.Name.{identity_text};
ghost use Rattle.lq_report.specs.Output.{history_line, history_text, tag_behind, tracked_identity};

use crate::parts::append_counted;
use lq_base::{NoMemory, Text, Tracked, is_moment, print_moment};
use std::alloc::Global;

fn append_identity(row: &Tracked, to: &mut Text) -> Result<(), NoMemory>
    ensures { OnOk result (to.new ≡ to.old ++ identity_text (tracked_identity row.now)) }
{
    let file = row.filename.as_str();
    to.push_all(&[file, "::", row.id.as_str(), "::", row.author.as_str()])
}

fn append_tag(tag: &Option<Text>, to: &mut Text) -> Result<(), NoMemory>
    ensures { OnOk result (to.new ≡ to.old ++ tag_behind tag.now) }
{
    match tag {
        Some(tag) => to.push_all(&[" tag ", tag.as_str()]),
        None => Ok(()),
    }
}

// A row whose moment is none of the calendar has no line; a database holds none.
#[tactic(auto, unfolding(crate::specs::Output::history_line))]
fn append_row(row: &Tracked, to: &mut Text) -> Result<(), NoMemory>
    ensures { OnOk result (to.new ≡ to.old ++ history_line row.now) }
{
    if !is_moment(row.date) {
        return Err(NoMemory);
    }
    append_counted("", u64::from(row.order), " ", to)?;
    print_moment(row.date, to)?;
    to.push_all(&[" ", row.exec.text(), " "])?;
    append_identity(row, to)?;
    append_tag(&row.tag, to)?;
    to.push_str("\n")
}

/// What `history` writes: for each row in run order its place, its moment, how it came to be and its
/// changeset, and its tag where it has one.
pub fn history_text(alloc: Global, rows: &[Tracked]) -> Result<Text, NoMemory>
    ensures { IfOk result (λ text. text ≡ history_text rows.now) }
{
    let mut text = Text::new(alloc, "")?;
    for row in rows {
        append_row(row, &mut text)?;
    }
    Ok(text)
}
