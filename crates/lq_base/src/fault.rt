use crate::dialect::Dialect;
use crate::memory::NoMemory;
use crate::text::Text;
use std::alloc::{AllocError, AllocFailed};
use thiserror::Error;

/// Why a node of a tree is not what is to be read of it: a change, a condition, a changeset. A key is
/// given by its path from the node, as `columns[0].column.type`; the node itself has the empty path.
#[derive(Debug, Drop, Error)]
pub enum KindFault {
    /// A key that has to be there is not.
    #[error("a key is missing")]
    Missing(Text),
    /// A key is none that is read there.
    #[error("a key is unknown")]
    Unknown(Text),
    /// What stands at a key is not what the key takes.
    #[error("a key's value is bad")]
    Bad(Text),
    /// What stands there is not for this dialect.
    #[error("the change is not for this dialect")]
    NotFor { path: Text, dialect: Dialect },
    #[error("out of memory")]
    OutOfMemory,
}

impl From<NoMemory> for KindFault {
    ghost use Rattle.std.specs.Prelude.{◌≡◌};
    ghost use Rattle.lq_base.specs.declared.fault.KindFault.TheVariants.{OutOfMemory};

    ghost from_gives = { λ _ e. e ≡ OutOfMemory };

    fn from(_: NoMemory) -> KindFault {
        KindFault::OutOfMemory
    }
}

impl From<AllocError> for KindFault {
    ghost use Rattle.std.specs.Prelude.{◌≡◌};
    ghost use Rattle.lq_base.specs.declared.fault.KindFault.TheVariants.{OutOfMemory};

    ghost from_gives = { λ _ e. e ≡ OutOfMemory };

    fn from(_: AllocError) -> KindFault {
        KindFault::OutOfMemory
    }
}

impl<T: Drop> From<AllocFailed<T>> for KindFault {
    ghost use Rattle.std.specs.Prelude.{◌≡◌};
    ghost use Rattle.lq_base.specs.declared.fault.KindFault.TheVariants.{OutOfMemory};

    ghost from_gives = { λ _ e. e ≡ OutOfMemory };

    fn from(_: AllocFailed<T>) -> KindFault {
        KindFault::OutOfMemory
    }
}
