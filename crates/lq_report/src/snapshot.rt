ghost use Rattle.std.specs.Prelude.{◌≡◌, IfOk};
ghost use Rattle.lq_report.specs.Output.{snapshot_text, written_text};

use crate::parts::append_counted;
use lq_base::{NoMemory, Text};
use std::alloc::Global;

/// What `snapshot` writes: how long the entry of the state is, or that none was needed (0).
pub fn snapshot_text(alloc: Global, size: u64) -> Result<Text, NoMemory>
    ensures { IfOk result (λ text. text ≡ snapshot_text size) }
{
    if size == 0 {
        return Text::new(alloc, "snapshot not needed\n");
    }
    written_text(alloc, size)
}

fn written_text(alloc: Global, size: u64) -> Result<Text, NoMemory>
    ensures { IfOk result (λ text. text ≡ written_text size) }
{
    let mut text = Text::new(alloc, "")?;
    append_counted("snapshot written: ", size, " bytes\n", &mut text)?;
    Ok(text)
}
