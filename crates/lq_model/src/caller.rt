use lq_base::Text;

/// On whose behalf a statement runs: the tracking tables are out of a user's reach.
#[derive(Clone, Copy, PartialEq, Eq)]
pub enum By {
    User,
    Program,
}

/// A statement's text, and on whose behalf it runs.
#[derive(Drop)]
pub struct ByText {
    pub by: By,
    pub text: Text,
}

/// How much of the journal a call may fill: what frees the lock may use what others leave.
#[derive(Clone, Copy, PartialEq, Eq)]
pub enum Room {
    Ordinary,
    Release,
}
