ghost use Rattle.std.specs.Prelude.{◌≡◌, IfOk};
ghost use Rattle.lq_report.specs.Output.{soak_text};

use crate::parts::append_counted;
use lq_base::{NoMemory, Text};
use std::alloc::Global;

/// What `soak` counted.
#[derive(Drop)]
pub struct Soaked {
    /// The changesets of its changelog.
    pub sets: u64,
    /// The entries of the journal after the update.
    pub entries: u64,
    /// The bytes of the journal then.
    pub bytes: u64,
    /// The MD5 of those bytes, in hexadecimal digits.
    pub sum: Text,
    /// The entries of the journal after the rollback.
    pub later: u64,
    /// The rows of tracking then.
    pub rows: u64,
    /// The tables of the changelog that are there then.
    pub tables: u64,
}

/// What `soak` writes: a line after the update, and one after the rollback.
#[tactic(auto, unfolding(crate::specs::Output::soak_text))]
pub fn soak_text(alloc: Global, of: &Soaked) -> Result<Text, NoMemory>
    ensures { IfOk result (λ text. text ≡ soak_text of.now) }
{
    let mut text = Text::new(alloc, "")?;
    append_counted("soak: ", of.sets, " changesets, ", &mut text)?;
    append_counted("", of.entries, " entries, ", &mut text)?;
    append_counted("", of.bytes, " bytes, md5 ", &mut text)?;
    text.push_all(&[of.sum.as_str(), "\nsoak: "])?;
    append_counted("", of.later, " entries, ", &mut text)?;
    append_counted("", of.rows, " rows, ", &mut text)?;
    append_counted("", of.tables, " tables\n", &mut text)?;
    Ok(text)
}
