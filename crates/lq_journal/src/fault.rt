use lq_base::NoMemory;
use lq_outside::DiskFailed;
use std::alloc::{AllocError, AllocFailed};
use thiserror::Error;

/// Why a journal was not loaded.
#[derive(Clone, Copy, Debug, PartialEq, Eq, Error)]
pub enum LoadFault {
    #[error("a disk fault")]
    Disk,
    /// The bytes are no journal of the dialect. The first place where they are wrong is the limit for
    /// a file that is longer, 0 for the header, and an entry's place for the entry.
    #[error("the journal is damaged")]
    Damaged { at: u64 },
    #[error("out of memory")]
    OutOfMemory,
}

/// Why an entry was not appended.
#[derive(Clone, Copy, Debug, PartialEq, Eq, Error)]
pub enum AppendFault {
    #[error("a disk fault")]
    Disk,
    /// The entry takes `next` bytes, and with the `used` ones there is no room for it.
    #[error("the journal is full")]
    Full { used: u64, next: u64 },
}

impl From<DiskFailed> for LoadFault {
    ghost use Rattle.std.specs.Prelude.{◌≡◌};
    ghost use Rattle.lq_journal.specs.declared.fault.LoadFault.TheVariants.{Disk};

    ghost from_gives = { λ _ fault. fault ≡ Disk };

    fn from(_: DiskFailed) -> LoadFault {
        LoadFault::Disk
    }
}

impl From<NoMemory> for LoadFault {
    ghost use Rattle.std.specs.Prelude.{◌≡◌};
    ghost use Rattle.lq_journal.specs.declared.fault.LoadFault.TheVariants.{OutOfMemory};

    ghost from_gives = { λ _ fault. fault ≡ OutOfMemory };

    fn from(_: NoMemory) -> LoadFault {
        LoadFault::OutOfMemory
    }
}

impl From<AllocError> for LoadFault {
    ghost use Rattle.std.specs.Prelude.{◌≡◌};
    ghost use Rattle.lq_journal.specs.declared.fault.LoadFault.TheVariants.{OutOfMemory};

    ghost from_gives = { λ _ fault. fault ≡ OutOfMemory };

    fn from(_: AllocError) -> LoadFault {
        LoadFault::OutOfMemory
    }
}

impl From<DiskFailed> for AppendFault {
    ghost use Rattle.std.specs.Prelude.{◌≡◌};
    ghost use Rattle.lq_journal.specs.declared.fault.AppendFault.TheVariants.{Disk};

    ghost from_gives = { λ _ fault. fault ≡ Disk };

    fn from(_: DiskFailed) -> AppendFault {
        AppendFault::Disk
    }
}
