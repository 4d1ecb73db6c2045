ghost use Rattle.std.specs.Prelude.{◌≡◌};
ghost use Rattle.lq_report.specs.Output.{validated_text};

/// A line of the log that needs no memory.
#[derive(Clone, Copy, PartialEq, Eq)]
pub enum FixedLine {
    /// The words are no command line.
    Usage,
    /// The files could not be read.
    ReadFault,
    /// The changelog has too many changesets or files.
    TooMany,
    /// `tag` found no row.
    NothingToTag,
    /// The lock is free, or has no mark of a changeset that a stop cut off.
    NothingToUndo,
    /// The database file could not be read or written.
    DiskFault,
    /// The output could not be written.
    WriteFault,
    OutOfMemory,
}

impl FixedLine {
    ghost use Rattle.lq_report.specs.Output.{fixed_line};

    /// The line, with its end.
    #[tactic(auto, unfolding(crate::specs::Output::fixed_line))]
    pub fn text(self) -> &'static str
        ensures { result.now ≡ fixed_line self }
    {
        match self {
            FixedLine::Usage =>
                "liquibase: usage: liquibase COMMAND --url=DIALECT:FILE [options]\n",
            FixedLine::ReadFault => "liquibase: cannot read the files\n",
            FixedLine::TooMany => "liquibase: changelog fault: too many changesets or files\n",
            FixedLine::NothingToTag => "liquibase: no changeset to tag\n",
            FixedLine::NothingToUndo => "liquibase: nothing to undo\n",
            FixedLine::DiskFault => "liquibase: database fault\n",
            FixedLine::WriteFault => "liquibase: cannot write the output\n",
            FixedLine::OutOfMemory => "liquibase: out of memory\n",
        }
    }
}

/// What `validate` writes where it finds no fault.
pub fn validated_text() -> &'static str
    ensures { result.now ≡ validated_text }
{
    "no validation faults\n"
}
