ghost use Rattle.std.specs.Prelude.{◌≡◌, IfOk, string_bytes};
ghost use Rattle.lq_commands.specs.Stamp.{clean, kept};

use lq_base::{NoMemory, Text};
use lq_words::shown;
use std::alloc::{AllocError, Global};

/// Who runs the command, as the tracking tables name it: each `|` and each control character is `_`,
/// any other stays. It fails only for want of memory.
pub fn clean(alloc: Global, who: &str) -> Result<Text, NoMemory>
    ensures { IfOk result (λ text. text ≡ clean who.now) }
{
    let text = cleaned(alloc, who)?;
    Text::new(alloc, text.as_str())
}

fn cleaned(alloc: Global, who: &str) -> Result<String, AllocError>
    ensures { IfOk result (λ text. string_bytes text ≡ clean who.now) }
{
    who.chars().map(kept).collect(alloc)
}

fn kept(character: char) -> char
    ensures { result ≡ kept character }
{
    match character {
        '|' => '_',
        _ => shown(character),
    }
}
