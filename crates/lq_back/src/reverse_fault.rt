ghost use Rattle.std.specs.Prelude.{◌≡◌};
ghost use Rattle.lq_back.specs.declared.reverse_fault.ReverseFault.TheVariants.{OutOfMemory};

use lq_base::{Identity, NoMemory};
use std::alloc::AllocError;
use thiserror::Error;

/// Why rows cannot be taken back.
#[derive(Debug, Drop, Error)]
pub enum ReverseFault {
    /// Nothing takes the row of this changeset back.
    #[error("a changeset cannot be rolled back")]
    Not(Identity),
    #[error("out of memory")]
    OutOfMemory,
}

impl From<NoMemory> for ReverseFault {
    ghost from_gives = { λ _ e. e ≡ OutOfMemory };

    fn from(_: NoMemory) -> ReverseFault {
        ReverseFault::OutOfMemory
    }
}

impl From<AllocError> for ReverseFault {
    ghost from_gives = { λ _ e. e ≡ OutOfMemory };

    fn from(_: AllocError) -> ReverseFault {
        ReverseFault::OutOfMemory
    }
}
