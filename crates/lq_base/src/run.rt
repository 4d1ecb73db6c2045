use crate::duplicate::{Duplicate, Same};
use crate::identity::Identity;
use crate::memory::NoMemory;
use crate::reason::Reason;
use crate::text::Text;
use sqlite_items::Items;
use std::alloc::Global;

/// Why a run halted at a precondition.
#[derive(Clone, Copy, PartialEq, Eq)]
pub enum Why {
    /// The condition does not hold.
    Failed,
    /// The database refused the question.
    Error(Reason),
}

/// The reaction to a condition that does not hold, or that cannot be told.
#[derive(Clone, Copy, PartialEq, Eq)]
pub enum OnFail {
    /// The command stops.
    Halt,
    /// The changeset is skipped, and gets no row.
    Continue,
    /// The changeset gets a row, and does not run.
    MarkRan,
    /// The changeset runs, after a warning.
    Warn,
}

/// The statements that were run for a changeset, or to take it back.
pub struct Printed {
    pub identity: Identity,
    pub texts: Items<Text>,
}

// Written out, so that each place that lets one go is one call.
impl Drop for Printed {
    fn drop(self) {
        let Printed { identity, texts } = self;
        drop(identity);
        drop(texts);
    }
}

/// What a command did with a changeset.
#[derive(Clone, Copy, PartialEq, Eq)]
pub enum Did {
    Ran,
    RanAgain,
    Marked,
    Skipped,
    RolledBack,
}

/// One line of what a command tells.
#[derive(Drop)]
pub struct Happened {
    pub what: Did,
    pub identity: Identity,
}

impl Duplicate for Printed {
    fn duplicate(&self, alloc: Global) -> Result<Printed, NoMemory> {
        Ok(Printed {
            identity: self.identity.duplicate(alloc)?,
            texts: self.texts.duplicate(alloc)?,
        })
    }
}

impl Same for Printed {
    fn same(&self, other: &Printed) -> bool {
        self.identity.same(&other.identity) && self.texts.same(&other.texts)
    }
}

impl Duplicate for Happened {
    fn duplicate(&self, alloc: Global) -> Result<Happened, NoMemory> {
        Ok(Happened {
            what: self.what,
            identity: self.identity.duplicate(alloc)?,
        })
    }
}

impl Same for Happened {
    fn same(&self, other: &Happened) -> bool {
        self.what == other.what && self.identity.same(&other.identity)
    }
}
