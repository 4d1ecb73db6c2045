use lq_base::{Identity, Reason, Why};

/// A statement that the database refused.
#[derive(Clone, Copy, PartialEq, Eq)]
pub struct Refusal {
    /// Its number in the turn, from 1; the row counts as one statement more.
    pub statement: u64,
    /// How many statements of the turn stay committed.
    pub kept: u64,
    pub reason: Reason,
}

/// What stops a command in its run.
#[derive(Drop)]
pub enum Stop {
    /// A condition. The changelog's own has no identity.
    Halted(Option<Identity>, Why),
    Refused(Identity, Refusal),
}
