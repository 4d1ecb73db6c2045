use crate::condition::Condition;
use lq_base::{Items, OnFail};

/// A precondition. All conditions in it are tested in order, and the first error is the answer.
pub enum Cond {
    /// Holds where all hold, so where there are none.
    And(Items<Cond>),
    /// Holds where one holds at least.
    Or(Items<Cond>),
    /// Holds where none holds, so where there are none.
    Not(Items<Cond>),
    Is(Condition),
}

// Written out, so that each place that lets one go is one call.
impl Drop for Cond {
    fn drop(self) {
        match self {
            Cond::And(it) => drop(it),
            Cond::Or(it) => drop(it),
            Cond::Not(it) => drop(it),
            Cond::Is(it) => drop(it),
        }
    }
}

/// A precondition, and what is done where it does not hold or cannot be told.
#[derive(Drop)]
pub struct Reaction {
    pub cond: Cond,
    pub on_fail: OnFail,
    pub on_error: OnFail,
}
