//! The state of a database as plain data: what is read from its bytes, before an engine is made of
//! it.
#![tactic(auto)]

mod rows;
mod sequence;
mod state;
mod table;
mod view;

pub use rows::append_row;
pub use sequence::Sequence;
pub use state::State;
pub use table::{Head, Table, append_head};
pub use view::View;
