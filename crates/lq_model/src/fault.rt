pub use lq_base::KindFault;
use lq_base::{NoMemory, Reason};
use std::alloc::AllocError;
use thiserror::Error;

/// Why a query gets no answer.
#[derive(Clone, Copy, Debug, PartialEq, Eq, Error)]
pub enum AskFault {
    #[error("the query is refused")]
    Refused(Reason),
    #[error("out of memory")]
    OutOfMemory,
}

/// Why a text is no statement, query or test.
#[derive(Clone, Copy, Debug, PartialEq, Eq, Error)]
pub enum ParseFault {
    #[error("no SQL of the dialect is spelled so")]
    NotSql,
    #[error("out of memory")]
    OutOfMemory,
}

impl From<NoMemory> for ParseFault {
    ghost use Rattle.std.specs.Prelude.{◌≡◌};
    ghost use Rattle.lq_model.specs.declared.fault.ParseFault.TheVariants.{OutOfMemory};

    ghost from_gives = { λ _ e. e ≡ OutOfMemory };

    fn from(_: NoMemory) -> ParseFault {
        ParseFault::OutOfMemory
    }
}

impl From<AllocError> for ParseFault {
    ghost use Rattle.std.specs.Prelude.{◌≡◌};
    ghost use Rattle.lq_model.specs.declared.fault.ParseFault.TheVariants.{OutOfMemory};

    ghost from_gives = { λ _ e. e ≡ OutOfMemory };

    fn from(_: AllocError) -> ParseFault {
        ParseFault::OutOfMemory
    }
}

/// Why a call of the store did not do what was asked.
#[derive(Clone, Copy, Debug, PartialEq, Eq, Error)]
pub enum StoreFault {
    #[error("the statement is refused")]
    Refused(Reason),
    #[error("the text is no statement")]
    NotSql,
    #[error("another session has a transaction open")]
    Busy(u32),
    #[error("a disk fault")]
    Disk,
    #[error("the journal is full")]
    Full { used: u64, next: u64 },
    #[error("out of memory")]
    OutOfMemory,
}
