ghost use Rattle.std.specs.Prelude.{◌≡◌};
ghost use Rattle.lq_yaml.specs.declared.fault.YamlFault.TheVariants.{OutOfMemory};

use lq_base::NoMemory;
use std::alloc::{AllocError, AllocFailed};
use thiserror::Error;

/// Why bytes are no tree.
#[derive(Clone, Copy, Debug, PartialEq, Eq, Error)]
pub enum YamlFault {
    #[error("not UTF-8")]
    NotUtf8,
    /// The first line that is wrong, counted from 1; the end of the file counts as one more.
    #[error("line {0}")]
    Line(u64),
    /// More than 64 levels.
    #[error("too deep")]
    TooDeep,
    #[error("out of memory")]
    OutOfMemory,
}

impl From<NoMemory> for YamlFault {
    ghost from_gives = { λ _ e. e ≡ OutOfMemory };

    fn from(_: NoMemory) -> YamlFault {
        YamlFault::OutOfMemory
    }
}

impl From<AllocError> for YamlFault {
    ghost from_gives = { λ _ e. e ≡ OutOfMemory };

    fn from(_: AllocError) -> YamlFault {
        YamlFault::OutOfMemory
    }
}

impl<T: Drop> From<AllocFailed<T>> for YamlFault {
    ghost from_gives = { λ _ e. e ≡ OutOfMemory };

    fn from(_: AllocFailed<T>) -> YamlFault {
        YamlFault::OutOfMemory
    }
}
