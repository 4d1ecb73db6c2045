//! A changeset of a changelog as the commands see it: whether it is selected, what it tells of itself,
//! what its row is, what it runs at its turn and what takes that back, and what a command tells and
//! prints.
#![tactic(auto)]

mod change_type;
mod described;
mod inverse;
mod laws;
mod outcome;
mod printing;
mod selection;
mod telling;
mod turn;
mod turn_row;

pub use inverse::undoing;
pub use laws::{meaning_is_kept, statements_are_spelled, views_are_read};
pub use outcome::{Halt, Outcome};
pub use printing::print;
pub use selection::is_selected;
pub use telling::{take_back, tell};
pub use turn::{fill_turn, mark_turn, run_turn, statements_of};
pub use turn_row::{recorded_row, row_of_turn};
