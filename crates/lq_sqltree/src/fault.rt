ghost use Rattle.std.specs.Prelude.{◌≡◌};
ghost use Rattle.lq_sqltree.specs.SqlTree.{fault_of};
ghost use Rattle.lq_sqltree.specs.declared.fault.SqlTreeFault.TheVariants.{OutOfMemory};

use lq_base::NoMemory;
use lq_sqlfile::SqlFault;
use thiserror::Error;

/// Why bytes are no tree of changesets.
#[derive(Clone, Copy, Debug, PartialEq, Eq, Error)]
pub enum SqlTreeFault {
    /// The first line is no header.
    #[error("no header")]
    NoHeader,
    /// The first line that is wrong, counted from 1.
    #[error("line {0}")]
    Line(u64),
    #[error("out of memory")]
    OutOfMemory,
}

impl From<NoMemory> for SqlTreeFault {
    ghost from_gives = { λ _ e. e ≡ OutOfMemory };

    fn from(_: NoMemory) -> SqlTreeFault {
        SqlTreeFault::OutOfMemory
    }
}

impl From<SqlFault> for SqlTreeFault {
    ghost from_gives = { λ fault e. e ≡ fault_of fault };

    fn from(fault: SqlFault) -> SqlTreeFault {
        match fault {
            SqlFault::NoHeader => SqlTreeFault::NoHeader,
            SqlFault::Line(line) => SqlTreeFault::Line(u64::from(line)),
            SqlFault::OutOfMemory => SqlTreeFault::OutOfMemory,
        }
    }
}
