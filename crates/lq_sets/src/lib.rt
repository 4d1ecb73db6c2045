//! The turns of a changelog: which changesets have one on the rows, what becomes of each by its
//! precondition, and where an update has its turns from.
#![tactic(auto)]

mod beginnings;
mod choosing;
mod condition;
mod heads;
mod in_hand;
mod laws;
mod planning;
mod rows_asked;
mod seen_choice;
mod set_hand;
mod set_turns;

pub use choosing::{choice, own_choice};
pub use condition::holds;
pub use laws::conditions_see_users;
pub use planning::{faults_of, pending_of, work_of};
pub use set_turns::SetTurns;
