ghost use Rattle.std.specs.Prelude.{◌≡◌};
ghost use Rattle.lq_sqllex.specs.declared.fault.SplitFault.TheVariants.{OutOfMemory};

use lq_base::NoMemory;
use thiserror::Error;

/// Why a text is not cut into pieces.
#[derive(Clone, Copy, Debug, PartialEq, Eq, Error)]
pub enum SplitFault {
    /// A string, quoted name or comment is not closed.
    #[error("a quote or comment is not closed")]
    Unclosed,
    #[error("out of memory")]
    OutOfMemory,
}

impl From<NoMemory> for SplitFault {
    ghost from_gives = { λ _ e. e ≡ OutOfMemory };

    fn from(_: NoMemory) -> SplitFault {
        SplitFault::OutOfMemory
    }
}
