//! Commands as steps over a store.
#![tactic(auto)]

mod alone;
mod calls;
mod deed;
mod hand;
mod holding;
mod no_turns;
mod runner;

pub use alone::{Tables, clear_rows, free_lock, opening, tag_row, take_lock};
pub use calls::{abort, begin, commit, do_alone};
pub use hand::{Moved, take};
pub use holding::{Holding, lock_held};
pub use no_turns::NoTurns;
pub use runner::{End, Runner, Step, end_of, no_turn};
