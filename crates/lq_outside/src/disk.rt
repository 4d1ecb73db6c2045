ghost use Rattle.std.specs.Prelude.{◌≡◌, ◌+◌, ◌≤◌, ℕ, List, Option, length, IfSome, IfOk, OnOk, OnErr};
ghost use Rattle.lq_outside.specs.Forms.{CountsFault};
ghost use Rattle.lq_outside.specs.Crash.{Reads, Writes, Tears, Torn, Crashes, Goes, Same, Settled, IsSound, SameSyncs, NewSync};

use thiserror::Error;

/// A call of a disk failed.
#[derive(Clone, Copy, Debug, PartialEq, Eq, Error)]
#[error("the disk failed")]
pub struct DiskFailed;

/// The bytes of one file that must outlast a crash.
///
/// Until a sync succeeds, a crash may leave any bytes in each range that was written and past the
/// old end. Other bytes stay, and the size lies between the old one and the new one.
pub trait Disk {
    /// The bytes that a read gives, where the disk tells them.
    ghost told: { Self → Option (List ℕ) };

    /// How many calls have failed. At the greatest u64 it stays.
    ghost faults: { Self → ℕ };

    /// What a crash may leave, now and since each earlier moment.
    ghost crashes: { Self → Crashes };

    /// The number of bytes.
    fn size(&mut self) -> Result<u64, DiskFailed>
        ensures size { IfSome (told self.old)
            (λ bytes. IfOk result (λ size. size ≡ length bytes)) }
        ensures told { told self.new ≡ told self.old }
        ensures crash { Goes Same (crashes self.old) (crashes self.new) }
        ensures syncs { SameSyncs (crashes self.old) (crashes self.new) }
        ensures faults { CountsFault result (faults self.old) (faults self.new) };

    /// Fills `into` with the bytes from `at` on.
    fn read(&mut self, at: u64, into: &mut [u8]) -> Result<(), DiskFailed>
        requires { IfSome (told self.old) (λ bytes. at + length into.old ≤ length bytes) }
        ensures read { IfSome (told self.old) (λ bytes. OnOk result (Reads bytes at into.new)) }
        ensures told { told self.new ≡ told self.old }
        ensures crash { Goes Same (crashes self.old) (crashes self.new) }
        ensures syncs { SameSyncs (crashes self.old) (crashes self.new) }
        ensures faults { CountsFault result (faults self.old) (faults self.new) };

    /// Writes over what is there, and past the end. One that fails leaves any bytes in its range,
    /// for reads too.
    fn write_at(&mut self, at: u64, bytes: &[u8]) -> Result<(), DiskFailed>
        requires { IfSome (told self.old) (λ before. at ≤ length before) }
        ensures written { OnOk result (Writes at bytes.now (told self.old) (told self.new)) }
        ensures torn { Tears at (length bytes.now) (told self.old) (told self.new) }
        ensures crash { Goes (Torn at (length bytes.now)) (crashes self.old) (crashes self.new) }
        ensures syncs { SameSyncs (crashes self.old) (crashes self.new) }
        ensures faults { CountsFault result (faults self.old) (faults self.new) };

    /// Puts all that was written on the disk: a crash leaves what a read gives.
    fn sync(&mut self) -> Result<(), DiskFailed>
        ensures told { told self.new ≡ told self.old }
        ensures crash { Goes Same (crashes self.old) (crashes self.new) }
        ensures durable { OnOk result (Settled (told self.old) (crashes self.new)) }
        ensures synced { OnOk result (NewSync (crashes self.old) (crashes self.new)) }
        ensures not_synced { OnErr result (SameSyncs (crashes self.old) (crashes self.new)) }
        ensures faults { CountsFault result (faults self.old) (faults self.new) };

    /// At every moment, what a read gives is one of the contents that a crash may leave.
    ghost sound: { (disk : Self) → IsSound (told disk) (crashes disk) };
}
