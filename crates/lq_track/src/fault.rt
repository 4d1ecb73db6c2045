use lq_base::NoMemory;
use thiserror::Error;

/// Why the tracking tables were not read.
#[derive(Clone, Copy, Debug, PartialEq, Eq, Error)]
pub enum TrackFault {
    /// They are there, and are not as they are made.
    #[error("not the tracking tables")]
    NotTables,
    #[error("out of memory")]
    OutOfMemory,
}

impl From<NoMemory> for TrackFault {
    ghost use Rattle.std.specs.Prelude.{◌≡◌};
    ghost use Rattle.lq_track.specs.declared.fault.TrackFault.TheVariants.{OutOfMemory};

    ghost from_gives = { λ _ fault. fault ≡ OutOfMemory };

    fn from(_: NoMemory) -> TrackFault {
        TrackFault::OutOfMemory
    }
}
