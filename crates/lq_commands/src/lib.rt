//! What each command does on a store: its checks, its calls, and what it tells.
#![tactic(auto)]

mod checks;
mod clear;
mod command;
mod given;
mod listing;
mod one_turn;
mod part;
mod release;
pub mod rollback;
mod running;
mod stamp;
mod stopping;
mod sync;
mod tag;
pub mod update;
mod who;

pub use checks::{check_lock, checked_rows, rows_in, valid_rows};
pub use command::{print_rollback, print_update, run_command, run_single};
pub use given::{Asked, Given, SESSION, stamped};
pub use running::fault_answer;
pub use stamp::{numbered_stamp, stamp_of};
pub use who::clean;
