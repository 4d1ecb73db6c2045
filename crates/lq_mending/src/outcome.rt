ghost use Rattle.std.specs.Prelude.{◌≡◌};
ghost use Rattle.lq_mending.specs.declared.outcome.RepairFault.TheVariants.{OutOfMemory};

use lq_base::{Identity, Items, NoMemory};
use lq_turns::{Fault, Refusal};

/// A changeset whose part without a row was taken back, and how many statements that part had.
#[derive(Drop)]
pub struct Repaired {
    pub identity: Identity,
    pub count: u64,
}

/// Why the part of a changeset without a row was not taken back.
#[derive(Drop)]
pub enum RepairFault {
    /// The lock is free, or has no mark of such a part.
    NothingToUndo,
    /// The changelog does not go with the rows of the database.
    Invalid(Items<Fault>),
    /// The mark names this changeset, and it has a rollback block, a change that nothing generated takes
    /// back, or fewer statements than the mark counts. Or it names no changeset that is here and has no
    /// row, or more than one: then the file is the mark's text, without id and author.
    NotReversible(Identity),
    /// What takes this statement of the changeset back was refused. The lock stays held.
    Refused(Identity, Refusal),
    /// The database file could not be read or written.
    Disk,
    /// With `used` bytes of the journal in use, there is no room for the `next` ones.
    Full { used: u64, next: u64 },
    OutOfMemory,
}

impl From<NoMemory> for RepairFault {
    ghost from_gives = { λ _ e. e ≡ OutOfMemory };

    fn from(_: NoMemory) -> RepairFault {
        RepairFault::OutOfMemory
    }
}
