ghost use Rattle.std.specs.List.{flat_map};
ghost use Rattle.std.specs.Prelude.{◌≡◌, ◌++◌, IfOk, OnOk};
ghost use Rattle.lq_report.specs.Output.{pending_line, status_text, tagged_text, undone_text};

use crate::parts::{append_counted, append_named};
use lq_base::{Identity, NoMemory, Text};
use std::alloc::Global;

#[tactic(auto, unfolding(crate::specs::Output::pending_line))]
fn append_pending(identity: &Identity, to: &mut Text) -> Result<(), NoMemory>
    ensures { OnOk result (to.new ≡ to.old ++ pending_line identity.now) }
{
    append_named("", identity, "\n", to)
}

fn append_all(pending: &[Identity], to: &mut Text) -> Result<(), NoMemory>
    ensures { OnOk result (to.new ≡ to.old ++ flat_map pending_line pending.now) }
{
    for identity in pending {
        append_pending(identity, to)?;
    }
    Ok(())
}

/// What `status` writes: how many changesets are pending, and then a line for each.
#[tactic(auto, unfolding(crate::specs::Output::status_text))]
pub fn status_text(alloc: Global, pending: &[Identity]) -> Result<Text, NoMemory>
    ensures { IfOk result (λ text. text ≡ status_text pending.now) }
{
    let mut text = Text::new(alloc, "")?;
    append_counted("pending: ", pending.len() as u64, "\n", &mut text)?;
    append_all(pending, &mut text)?;
    Ok(text)
}

/// What `tag` writes.
pub fn tagged_text(alloc: Global, tag: &str) -> Result<Text, NoMemory>
    ensures { IfOk result (λ text. text ≡ tagged_text tag.now) }
{
    let mut text = Text::new(alloc, "")?;
    text.push_all(&["tagged ", tag, "\n"])?;
    Ok(text)
}

#[tactic(auto, unfolding(crate::specs::Output::undone_text))]
fn append_undone(identity: &Identity, count: u64, to: &mut Text) -> Result<(), NoMemory>
    ensures { OnOk result (to.new ≡ to.old ++ undone_text identity.now count) }
{
    append_named("undone ", identity, ", ", to)?;
    append_counted("", count, " statements\n", to)
}

/// What `undo-unrecorded` writes: the changeset, and how many of its statements were taken back.
pub fn undone_text(alloc: Global, identity: &Identity, count: u64) -> Result<Text, NoMemory>
    ensures { IfOk result (λ text. text ≡ undone_text identity.now count) }
{
    let mut text = Text::new(alloc, "")?;
    append_undone(identity, count, &mut text)?;
    Ok(text)
}
