//! Rows of changesets: which of them a rollback takes back and what does, where it has its turns from,
//! and the rows that a changelog-sync inserts.
#![tactic(auto)]

mod invertible;
mod laws;
mod reversal;
mod reverse_fault;
mod row_back;
mod row_turns;
mod set_index;
mod sync_rows;
mod sync_turn;
mod target;

pub use laws::{places_are_known, turns_back_are_spelled};
pub use lq_kept::TakenBack;
pub use reversal::{is_undoable, reversible};
pub use reverse_fault::ReverseFault;
pub use row_back::undo_turns;
pub use row_turns::RowTurns;
pub use sync_rows::rows_to_sync;
pub use sync_turn::{marked, sync_hand};
pub use target::rows_to_undo;
