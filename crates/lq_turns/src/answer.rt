use crate::fault::Fault;
use lq_base::{Identity, Items, Lock, Reason, Why};

/// What a command answers.
pub enum Answer {
    Done,
    /// The lock is held, or no longer by the runner that has begun.
    Locked(Lock),
    Invalid(Items<Fault>),
    /// A condition halted it. The changelog's own has no identity.
    Halted {
        identity: Option<Identity>,
        why: Why,
    },
    /// A statement was refused: its number from 1, and how many of its changeset stay committed.
    Refused {
        identity: Identity,
        statement: u64,
        kept: u64,
        reason: Reason,
    },
    /// No row has the tag, or there is no row to tag.
    NoTarget,
    /// The last row to go that nothing takes back.
    NotReversible(Identity),
    Disk,
    /// The bytes of the journal, and those of the call's entries.
    Full {
        used: u64,
        next: u64,
    },
    /// This session has a transaction open.
    Busy(u32),
    OutOfMemory,
}

// Written out, so that each place that lets one go is one call.
impl Drop for Answer {
    fn drop(self) {
        match self {
            Answer::Done => (),
            Answer::Locked(it) => drop(it),
            Answer::Invalid(it) => drop(it),
            Answer::Halted { identity, why } => {
                drop(identity);
                drop(why);
            }
            Answer::Refused {
                identity,
                statement: _,
                kept: _,
                reason,
            } => {
                drop(identity);
                drop(reason);
            }
            Answer::NoTarget => (),
            Answer::NotReversible(it) => drop(it),
            Answer::Disk => (),
            Answer::Full { used: _, next: _ } => (),
            Answer::Busy(_) => (),
            Answer::OutOfMemory => (),
        }
    }
}

/// What a step of a runner came to.
#[derive(Drop)]
pub enum Step {
    /// It made a call, and one is still to be made.
    Going,
    Done(Answer),
}
