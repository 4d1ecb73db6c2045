//! Several commands that take steps in any given order over one database, and what comes of it.
#![tactic(auto)]

mod fault;
mod player;
mod schedule;

pub use fault::DrillFault;
pub use player::Player;
pub use schedule::drill;
