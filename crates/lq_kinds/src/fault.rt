use lq_base::{KindFault, NoMemory, Text};
use std::alloc::AllocError;
use thiserror::Error;

/// Why a node is no changeset.
#[derive(Debug, Drop, Error)]
pub enum SetFault {
    /// Its keys, by their paths from the node.
    #[error("a key of the changeset is wrong")]
    InKeys(KindFault),
    /// Its `logicalFilePath` has not 1 to 255 characters, or a control character.
    #[error("a bad path")]
    BadPath,
    /// One of its changes loads a file of which no bytes were given.
    #[error("a file is wanted")]
    Wants {
        file: Text,
        /// Whether the path is from the folder of the changelog's file.
        is_relative: bool,
    },
}

impl From<KindFault> for SetFault {
    ghost use Rattle.std.specs.Prelude.{◌≡◌};
    ghost use Rattle.lq_kinds.specs.declared.fault.SetFault.TheVariants.{InKeys};

    ghost from_gives = { λ fault e. e ≡ InKeys fault };

    fn from(fault: KindFault) -> SetFault {
        SetFault::InKeys(fault)
    }
}

impl From<NoMemory> for SetFault {
    ghost use Rattle.std.specs.Prelude.{◌≡◌};
    ghost use Rattle.lq_base.specs.declared.fault.KindFault.TheVariants.{OutOfMemory};
    ghost use Rattle.lq_kinds.specs.declared.fault.SetFault.TheVariants.{InKeys};

    ghost from_gives = { λ _ e. e ≡ InKeys OutOfMemory };

    fn from(_: NoMemory) -> SetFault {
        SetFault::InKeys(KindFault::OutOfMemory)
    }
}

impl From<AllocError> for SetFault {
    ghost use Rattle.std.specs.Prelude.{◌≡◌};
    ghost use Rattle.lq_base.specs.declared.fault.KindFault.TheVariants.{OutOfMemory};
    ghost use Rattle.lq_kinds.specs.declared.fault.SetFault.TheVariants.{InKeys};

    ghost from_gives = { λ _ e. e ≡ InKeys OutOfMemory };

    fn from(_: AllocError) -> SetFault {
        SetFault::InKeys(KindFault::OutOfMemory)
    }
}
