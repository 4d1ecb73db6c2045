ghost use Rattle.std.specs.Prelude.{◌≡◌};
ghost use Rattle.lq_cli.specs.declared.fault.WordsFault.TheVariants.{OutOfMemory};

use lq_base::NoMemory;
use std::alloc::{AllocError, AllocFailed};
use thiserror::Error;

/// Why words are no command line.
#[derive(Clone, Copy, Debug, PartialEq, Eq, Error)]
pub enum WordsFault {
    #[error("not a command line")]
    Usage,
    #[error("out of memory")]
    OutOfMemory,
}

impl From<NoMemory> for WordsFault {
    ghost from_gives = { λ _ e. e ≡ OutOfMemory };

    fn from(_: NoMemory) -> WordsFault {
        WordsFault::OutOfMemory
    }
}

impl From<AllocError> for WordsFault {
    ghost from_gives = { λ _ e. e ≡ OutOfMemory };

    fn from(_: AllocError) -> WordsFault {
        WordsFault::OutOfMemory
    }
}

impl<T: Drop> From<AllocFailed<T>> for WordsFault {
    ghost from_gives = { λ _ e. e ≡ OutOfMemory };

    fn from(_: AllocFailed<T>) -> WordsFault {
        WordsFault::OutOfMemory
    }
}
