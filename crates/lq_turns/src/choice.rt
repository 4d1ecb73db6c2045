use lq_base::Why;

/// What becomes of a changeset by its row: it is new, it runs again, or its checksum is filled in.
#[derive(Clone, Copy, PartialEq, Eq)]
pub enum What {
    New,
    Again,
    Fill,
}

/// What a changeset does at its turn.
#[derive(Clone, Copy, PartialEq, Eq)]
pub enum Choice {
    /// It has no turn.
    Passes,
    Fills,
    Skips,
    Marks(What),
    /// Perhaps after a warning.
    Runs(What, Option<Why>),
    Halts(Why),
}
