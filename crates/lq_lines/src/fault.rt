ghost use Rattle.std.specs.Prelude.{◌≡◌};
ghost use Rattle.lq_lines.specs.declared.fault.LinesFault.TheVariants.{OutOfMemory};

use lq_base::NoMemory;
use std::alloc::{AllocError, AllocFailed};
use thiserror::Error;

/// Why bytes are no file of a drill.
#[derive(Clone, Copy, Debug, PartialEq, Eq, Error)]
pub enum LinesFault {
    #[error("not a file of command lines and steps")]
    Usage,
    #[error("out of memory")]
    OutOfMemory,
}

impl From<NoMemory> for LinesFault {
    ghost from_gives = { λ _ e. e ≡ OutOfMemory };

    fn from(_: NoMemory) -> LinesFault {
        LinesFault::OutOfMemory
    }
}

impl From<AllocError> for LinesFault {
    ghost from_gives = { λ _ e. e ≡ OutOfMemory };

    fn from(_: AllocError) -> LinesFault {
        LinesFault::OutOfMemory
    }
}

impl<T: Drop> From<AllocFailed<T>> for LinesFault {
    ghost from_gives = { λ _ e. e ≡ OutOfMemory };

    fn from(_: AllocFailed<T>) -> LinesFault {
        LinesFault::OutOfMemory
    }
}
