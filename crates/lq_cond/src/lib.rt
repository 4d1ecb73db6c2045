//! Preconditions: what they are, how they are read, and whether they hold in a database.
#![tactic(auto)]

mod cond;
mod condition;
mod connective;
mod dialects;
mod holds;
mod kinds;
mod nested;
mod printed;
mod reaction;
mod setting;
mod tracking;
mod verdict;

pub use cond::{Cond, Reaction};
pub use condition::Condition;
pub use dialects::{dialect_names, is_meant};
pub use lq_base::OnFail;
pub use lq_verdicts::CondFault;
pub use verdict::check;
