ghost use Rattle.std.specs.Prelude.{◌≡◌, ◌+◌, ◌≤◌, IfSome, OnOk, OnErr, length, option_map, true};
ghost use Rattle.lq_frames.specs.Body.{size_of, journal_of, with_last, IsSameOrMore, StandsForSameOrMore, Stands};
ghost use Rattle.lq_outside.specs.Crash.{Writes, Tears, Torn, Settled, LeavesOnly, Half};
ghost use Rattle.lq_outside.specs.Forms.{CountsFault};

use lq_base::Dialect;
use lq_frames::Encoded;
use lq_outside::{Disk, DiskFailed};

/// Writes, and then syncs.
pub fn write_synced<D: Disk>(disk: &mut D, at: u64, bytes: &[u8]) -> Result<(), DiskFailed>
    requires { IfSome (D.told disk.old) (λ before. at ≤ length before) }
    ensures written { OnOk result (Writes at bytes.now (D.told disk.old) (D.told disk.new)) }
    ensures torn { Tears at (length bytes.now) (D.told disk.old) (D.told disk.new) }
    ensures durable { OnOk result (Settled (D.told disk.new) (D.crashes disk.new)) }
    ensures any_moment { LeavesOnly (D.crashes disk.old) (D.crashes disk.new)
        (Half (D.crashes disk.old).leaves (Torn at (length bytes.now))) }
    ensures faults { CountsFault result (D.faults disk.old) (D.faults disk.new) }
{
    disk.write_at(at, bytes)?;
    disk.sync()?;
    Ok(())
}

/// Where a journal ends.
#[derive(Clone, Copy)]
pub struct Ending {
    pub dialect: Dialect,
    /// The greatest size of the file.
    pub limit: u64,
    /// The place after the closed gate that ends it.
    pub used: u64,
}

/// Writes an entry for which there is room behind the closed gate, and then opens the gate.
pub fn write_entry<D: Disk, B: Encoded>(
    disk: &mut D,
    ending: Ending,
    entry: &B,
) -> Result<(), DiskFailed>
    requires stands { IfSome (D.told disk.old)
        (Stands true ending.dialect ending.limit ending.used) }
    requires used { 17 ≤ ending.used }
    requires limit { ending.limit ≤ 268435456 }
    requires fits { ending.used + size_of (B.says entry.now) ≤ ending.limit }
    ensures stands { OnOk result
        (IfSome (D.told disk.new)
        (Stands true ending.dialect ending.limit (ending.used + size_of (B.says entry.now)))) }
    ensures added { OnOk result (option_map (journal_of ending.dialect ending.limit)
        (D.told disk.new)
        ≡ option_map (with_last ending.used (B.says entry.now))
        (option_map (journal_of ending.dialect ending.limit) (D.told disk.old))) }

    // One that fails leaves the entries before it, with the new one or without.
    ensures failed { OnErr result (IsSameOrMore ending.used (B.says entry.now)
        (option_map (journal_of ending.dialect ending.limit) (D.told disk.old))
        (option_map (journal_of ending.dialect ending.limit) (D.told disk.new))) }

    // So does a crash at any moment of it, where all was on the disk before.
    ensures durable { OnOk result (Settled (D.told disk.new) (D.crashes disk.new)) }
    ensures any_moment { Settled (D.told disk.old) (D.crashes disk.old)
        → IfSome (D.told disk.old) (λ before.
        LeavesOnly (D.crashes disk.old) (D.crashes disk.new)
        (StandsForSameOrMore ending.dialect ending.limit ending.used (B.says entry.now)
        (journal_of ending.dialect ending.limit before))) }
    ensures faults { CountsFault result (D.faults disk.old) (D.faults disk.new) }
{
    let written = entry.bytes();
    write_synced(disk, ending.used, written)?;
    write_synced(disk, ending.used - 1, &[1])?;
    Ok(())
}
