use lq_base::NoMemory;
use thiserror::Error;

/// Why parts were not made an engine.
#[derive(Clone, Copy, Debug, PartialEq, Eq, Error)]
pub enum PartsFault {
    #[error("not a sound database")]
    NotSound,
    #[error("out of memory")]
    OutOfMemory,
}

impl From<NoMemory> for PartsFault {
    ghost use Rattle.std.specs.Prelude.{◌≡◌};
    ghost use Rattle.lq_engine.specs.declared.fault.PartsFault.TheVariants.{OutOfMemory};

    ghost from_gives = { λ _ fault. fault ≡ OutOfMemory };

    fn from(_: NoMemory) -> PartsFault {
        PartsFault::OutOfMemory
    }
}
