ghost use Rattle.std.specs.List.{flat_map};
ghost use Rattle.std.specs.Prelude.{◌≡◌, ◌++◌, IfOk, OnOk};
ghost use Rattle.lq_report.specs.Output.{happened_line, count_of, update_text, rollback_text, sync_text};
ghost use Rattle.lq_words.specs.Words.{is_did};

use crate::parts::{append_counted, append_named};
use lq_base::{Did, Happened, NoMemory, Text};
use lq_words::did_text;
use std::alloc::Global;

fn is_did(did: Did, other: Did) -> bool
    ensures { result ≡ is_did did other }
{
    did == other
}

fn count_of(did: Did, all: &[Happened]) -> u64
    ensures { result ≡ count_of did all.now }
{
    all.iter()
        .filter(|happened| is_did(did, happened.what))
        .count() as u64
}

#[tactic(auto, unfolding(crate::specs::Output::happened_line))]
fn append_line(happened: &Happened, to: &mut Text) -> Result<(), NoMemory>
    ensures { OnOk result (to.new ≡ to.old ++ happened_line happened.now) }
{
    to.push_str(did_text(happened.what))?;
    append_named(" ", &happened.identity, "\n", to)
}

fn lines_of(alloc: Global, all: &[Happened]) -> Result<Text, NoMemory>
    ensures { IfOk result (λ text. text ≡ flat_map happened_line all.now) }
{
    let mut text = Text::new(alloc, "")?;
    for happened in all {
        append_line(happened, &mut text)?;
    }
    Ok(text)
}

/// What `update` writes: a line for each changeset that it came to, and then how many there were of
/// each, and how many changes were not fresh.
#[tactic(auto, unfolding(crate::specs::Output::update_text))]
pub fn update_text(alloc: Global, all: &[Happened], not_fresh: u64) -> Result<Text, NoMemory>
    ensures { IfOk result (λ text. text ≡ update_text all.now not_fresh) }
{
    let mut text = lines_of(alloc, all)?;
    append_counted("update: ", count_of(Did::Ran, all), " ran, ", &mut text)?;
    append_counted("", count_of(Did::RanAgain, all), " ran again, ", &mut text)?;
    append_counted("", count_of(Did::Marked, all), " marked, ", &mut text)?;
    append_counted("", count_of(Did::Skipped, all), " skipped, ", &mut text)?;
    append_counted("", not_fresh, " not fresh\n", &mut text)?;
    Ok(text)
}

/// What the rollbacks write: a line for each changeset that was rolled back, and then their number.
#[tactic(auto, unfolding(crate::specs::Output::rollback_text))]
pub fn rollback_text(alloc: Global, all: &[Happened]) -> Result<Text, NoMemory>
    ensures { IfOk result (λ text. text ≡ rollback_text all.now) }
{
    let mut text = lines_of(alloc, all)?;
    append_counted(
        "rollback: ",
        count_of(Did::RolledBack, all),
        " rolled back\n",
        &mut text,
    )?;
    Ok(text)
}

/// What `changelog-sync` writes: a line for each changeset that was marked, and then their number.
#[tactic(auto, unfolding(crate::specs::Output::sync_text))]
pub fn sync_text(alloc: Global, all: &[Happened]) -> Result<Text, NoMemory>
    ensures { IfOk result (λ text. text ≡ sync_text all.now) }
{
    let mut text = lines_of(alloc, all)?;
    append_counted(
        "changelog-sync: ",
        count_of(Did::Marked, all),
        " marked\n",
        &mut text,
    )?;
    Ok(text)
}
