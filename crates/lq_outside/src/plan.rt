ghost use Rattle.std.specs.Prelude.{◌≡◌, ◌↔◌, IsErr, IsTrue};
ghost use Rattle.lq_outside.specs.Forms.{CountsFault};
ghost use Rattle.lq_outside.specs.Plan.{fails, GoesOn, Starts};

use crate::{DiskFailed, FilesFault, SinkFailed};

/// Which calls of a memory form are to fail.
#[derive(Drop)]
pub struct Plan {
    /// Their numbers, from 1.
    pub fail: Vec<u64>,
    pub made: u64,
    pub refused: u64,
}

/// A call was to fail.
#[derive(Clone, Copy, PartialEq, Eq)]
pub struct Refused;

impl Plan {
    pub fn new(fail: Vec<u64>) -> Plan
        ensures { Starts fail.items result }
    {
        Plan {
            fail,
            made: 0,
            refused: 0,
        }
    }

    /// Counts a call, and says whether it is to fail.
    pub fn pass(&mut self) -> Result<(), Refused>
        ensures planned { IsErr result ↔ IsTrue (fails self.old) }
        ensures plan { GoesOn self.old self.new }
        ensures faults { CountsFault result self.old.refused self.new.refused }
    {
        self.made = self.made.saturating_add(1);
        if self.fail.contains(&self.made) {
            self.refused = self.refused.saturating_add(1);
            return Err(Refused);
        }
        Ok(())
    }
}

impl From<Refused> for DiskFailed {
    fn from(_: Refused) -> DiskFailed {
        DiskFailed
    }
}

impl From<Refused> for SinkFailed {
    fn from(_: Refused) -> SinkFailed {
        SinkFailed
    }
}

impl From<Refused> for FilesFault {
    ghost use Rattle.std.specs.Prelude.{◌≡◌};
    ghost use Rattle.lq_outside.specs.declared.files.FilesFault.TheVariants.{Failed};

    ghost from_gives = { λ _ fault. fault ≡ Failed };

    fn from(_: Refused) -> FilesFault {
        FilesFault::Failed
    }
}
