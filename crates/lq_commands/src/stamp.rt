ghost use Rattle.std.specs.Prelude.{◌≡◌, ◌≤◌, IfOk, false};
ghost use Rattle.lq_commands.specs.Stamp.{numbered_stamp, stamp_of};
ghost use Rattle.lq_turns.specs.Stops.{is_mark};

use crate::who::clean;
use lq_base::{NoMemory, Text, append_whole};
use lq_turns::Stamp;
use std::alloc::Global;

/// The last reading of a clock that counts: the end of the year 9999.
const LAST: u64 = 253_402_300_799_999;

/// Who runs a command, cleaned, and the clock's reading in milliseconds since 1970, at most the end of
/// the year 9999. It fails only for want of memory.
pub fn stamp_of(alloc: Global, who: &str, reading: u64) -> Result<Stamp, NoMemory>
    ensures stamp { IfOk result (λ stamp. stamp ≡ stamp_of who.now reading) }
    ensures moment { IfOk result (λ stamp. stamp.reading ≤ 253402300799999) }
    ensures name { IfOk result (λ stamp. is_mark stamp.who ≡ false) }
{
    Ok(Stamp {
        who: clean(alloc, who)?,
        reading: reading.min(LAST),
    })
}

/// Who runs the command of this number among several that this name runs, as `name#number`, and the
/// clock's reading for it, as in `stamp_of`. It fails only for want of memory.
pub fn numbered_stamp(
    alloc: Global,
    name: &Text,
    number: u64,
    reading: u64,
) -> Result<Stamp, NoMemory>
    ensures stamp { IfOk result (λ stamp. stamp ≡ numbered_stamp name.now number reading) }
    ensures moment { IfOk result (λ stamp. stamp.reading ≤ 253402300799999) }
{
    let mut who = name.copy(alloc)?;
    who.push_str("#")?;
    append_whole(i128::from(number), &mut who)?;
    Ok(Stamp {
        who,
        reading: reading.min(LAST),
    })
}
