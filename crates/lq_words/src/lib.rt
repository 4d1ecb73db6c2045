//! The words that the texts of commands are made of, and texts without control characters.
#![tactic(auto)]

mod control;
mod did;
mod held;
mod verb;

pub use control::{plain, shown};
pub use did::did_text;
pub use held::append_held;
pub use verb::command_word;
