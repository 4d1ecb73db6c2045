ghost use Rattle.std.specs.Prelude.{◌≡◌, IfOk};
ghost use Rattle.lq_report.specs.Output.{cleared_text};

use crate::parts::append_counted;
use lq_base::{NoMemory, Text};
use std::alloc::Global;

/// What `clear-checksums` writes: how many rows lost their checksum.
pub fn cleared_text(alloc: Global, count: u64) -> Result<Text, NoMemory>
    ensures { IfOk result (λ text. text ≡ cleared_text count) }
{
    let mut text = Text::new(alloc, "")?;
    append_counted("checksums cleared: ", count, "\n", &mut text)?;
    Ok(text)
}
