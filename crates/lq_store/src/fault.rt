use lq_base::{NoMemory, Reason};
use thiserror::Error;

/// Why an executor did not run a statement.
#[derive(Clone, Copy, Debug, PartialEq, Eq, Error)]
pub enum RunFault {
    #[error("the statement is refused")]
    Refused(Reason),
    #[error("out of memory")]
    OutOfMemory,
}

impl From<NoMemory> for RunFault {
    ghost use Rattle.std.specs.Prelude.{◌≡◌};
    ghost use Rattle.lq_store.specs.declared.fault.RunFault.TheVariants.{OutOfMemory};

    ghost from_gives = { λ _ fault. fault ≡ OutOfMemory };

    fn from(_: NoMemory) -> RunFault {
        RunFault::OutOfMemory
    }
}

/// Why bytes were not read as a database.
#[derive(Clone, Copy, Debug, PartialEq, Eq, Error)]
pub enum SnapFault {
    #[error("not a snapshot")]
    NotSnapshot,
    #[error("out of memory")]
    OutOfMemory,
}

impl From<NoMemory> for SnapFault {
    ghost use Rattle.std.specs.Prelude.{◌≡◌};
    ghost use Rattle.lq_store.specs.declared.fault.SnapFault.TheVariants.{OutOfMemory};

    ghost from_gives = { λ _ fault. fault ≡ OutOfMemory };

    fn from(_: NoMemory) -> SnapFault {
        SnapFault::OutOfMemory
    }
}
