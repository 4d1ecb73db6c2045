//! The bytes of a journal: its header, its gates and its entries, each of which is some texts or a
//! state of the database.
#![tactic(auto)]

mod encoded;
mod entry;
mod state;
mod written;

pub use encoded::EncodedEntry;
pub use entry::{Body, Entry};
pub use state::EncodedState;
pub use written::Encoded;
