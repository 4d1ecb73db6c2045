use lq_base::{NoMemory, Reason};
use thiserror::Error;

/// Why it is not told whether a condition holds.
#[derive(Clone, Copy, Debug, PartialEq, Eq, Error)]
pub enum CondFault {
    #[error("the condition cannot be tested")]
    Error(Reason),
    #[error("out of memory")]
    OutOfMemory,
}

impl From<NoMemory> for CondFault {
    ghost use Rattle.std.specs.Prelude.{◌≡◌};
    ghost use Rattle.lq_verdicts.specs.declared.fault.CondFault.TheVariants.{OutOfMemory};

    ghost from_gives = { λ _ e. e ≡ OutOfMemory };

    fn from(_: NoMemory) -> CondFault {
        CondFault::OutOfMemory
    }
}
