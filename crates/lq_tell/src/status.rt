use lq_base::{Identity, Items, Lock, NoMemory, Reason, Text, Why};
use lq_sources::LoadFault;
use lq_turns::Fault;

/// How a command ended.
#[derive(Drop)]
pub enum Status {
    /// The command did its work.
    Done,
    /// The words are no command line.
    Usage,
    /// The files could not be read.
    ReadFault,
    /// The files give no changelog.
    Changelog(LoadFault),
    /// The changelog does not go with the rows of the database.
    Invalid(Items<Fault>),
    /// The lock is held.
    Locked(Lock),
    /// The run halted at a precondition. The changelog's own has no identity.
    Halted {
        identity: Option<Identity>,
        why: Why,
    },
    /// A statement of the run was refused: its number from 1, and how many of its changeset stay.
    Refused {
        identity: Identity,
        statement: u64,
        kept: u64,
        reason: Reason,
    },
    /// No row has the tag, or there is no row to tag.
    NoTarget,
    /// Nothing takes the row of this changeset back.
    NotReversible(Identity),
    /// The lock is free, or has no mark of a changeset that a stop cut off.
    NothingToUndo,
    /// A changelog cannot say what stands here: an object, a column of one, or all of it.
    NotWritable(Text),
    /// The database file could not be read or written.
    DiskFault,
    /// The database file is no journal of the dialect, from this byte on.
    Damaged {
        at: u64,
    },
    /// With `used` bytes of the journal in use, there is no room for the `next` ones.
    Full {
        used: u64,
        next: u64,
    },
    /// The work is done, and its output could not be written.
    WriteFault,
    /// There was no memory.
    OutOfMemory,
    /// This session of a drill has a transaction open.
    Busy(u32),
}

impl Status {
    ghost use Rattle.std.specs.Prelude.{◌≡◌};
    ghost use Rattle.lq_tell.specs.Texts.{code_of, has_output};

    /// Whether a command that ended so has an output.
    pub fn has_output(&self) -> bool
        ensures { result ≡ has_output self.now }
    {
        match self {
            Status::Done | Status::Refused { .. } => true,
            Status::Halted { identity, .. } => identity.is_some(),
            _ => false,
        }
    }

    /// The program's exit status.
    pub fn code(&self) -> u8
        ensures { result ≡ code_of self.now }
    {
        match self {
            Status::Done => 0,
            Status::Usage => 2,
            Status::ReadFault => 3,
            Status::Changelog(_) => 4,
            Status::Invalid(_) => 5,
            Status::Locked(_) => 6,
            Status::Halted { .. } => 7,
            Status::Refused { .. } => 8,
            Status::NoTarget => 9,
            Status::NotReversible(_) => 10,
            Status::DiskFault => 11,
            Status::Damaged { .. } => 12,
            Status::Full { .. } => 13,
            Status::WriteFault => 14,
            Status::OutOfMemory => 15,
            Status::Busy(_) => 16,
            Status::NothingToUndo => 18,
            Status::NotWritable(_) => 19,
        }
    }
}

impl From<NoMemory> for Status {
    ghost use Rattle.std.specs.Prelude.{◌≡◌};
    ghost use Rattle.lq_tell.specs.declared.status.Status.TheVariants.{OutOfMemory};

    ghost from_gives = { λ _ status. status ≡ OutOfMemory };

    fn from(_: NoMemory) -> Status {
        Status::OutOfMemory
    }
}
