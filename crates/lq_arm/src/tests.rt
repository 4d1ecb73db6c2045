ghost use Rattle.lq_arm.specs.Verdict.{verdict_of};
ghost use Rattle.lq_rows.specs.Stored.{Means};

use lq_base::Reason;
use lq_rows::RunFault;

/// What is asked of a statement on a sound catalogue, in the order of the reasons.
#[derive(Clone, Copy)]
pub struct Tests {
    /// A user's statement names a tracking table.
    pub reserved: bool,
    /// Something that it names as there is not there.
    pub missing: bool,
    /// A name that it makes is taken or made twice.
    pub exists: bool,
    /// Something else needs what it changes, or a foreign key loses its targets.
    pub depends: bool,
    /// Kinds or numbers of columns differ.
    pub wrong: bool,
    /// A value is out of its kind.
    pub wide: bool,
    /// A null in a NOT NULL column.
    pub nulls: bool,
    /// Two rows are equal in a unique list.
    pub twins: bool,
    /// A row has no parent, by the statement's own fault.
    pub orphans: bool,
    /// Another table's row has lost its parent.
    pub children: bool,
    /// A table has too many rows.
    pub full: bool,
}

impl Tests {
    /// The reason of the first test that holds.
    #[tactic(auto, unfolding(crate::specs::Verdict::verdict_of))]
    pub fn verdict(&self) -> Result<(), RunFault>
        ensures { Means (verdict_of self.now) result }
    {
        if self.reserved {
            return Err(RunFault::Refused(Reason::Reserved));
        }
        if self.missing {
            return Err(RunFault::Refused(Reason::Missing));
        }
        if self.exists {
            return Err(RunFault::Refused(Reason::Exists));
        }
        if self.depends {
            return Err(RunFault::Refused(Reason::Depends));
        }
        if self.wrong {
            return Err(RunFault::Refused(Reason::WrongKind));
        }
        if self.wide {
            return Err(RunFault::Refused(Reason::TooWide));
        }
        if self.nulls {
            return Err(RunFault::Refused(Reason::NullFound));
        }
        if self.twins {
            return Err(RunFault::Refused(Reason::Duplicate));
        }
        if self.orphans {
            return Err(RunFault::Refused(Reason::NoParent));
        }
        if self.children {
            return Err(RunFault::Refused(Reason::HasChildren));
        }
        if self.full {
            return Err(RunFault::Refused(Reason::TooManyRows));
        }
        Ok(())
    }
}
