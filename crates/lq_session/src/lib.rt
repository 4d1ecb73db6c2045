//! The open transaction of a database: who sees its work, and how it ends.
#![tactic(auto)]

mod open;
mod session;

pub use open::Open;
pub use session::{abort, commit, look};
