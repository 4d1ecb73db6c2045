//! The turn that a command has in hand, and where its next turns come from.
#![tactic(auto)]

mod hand;
mod progress;
mod source;
mod turn;

pub use hand::{Hand, Phase};
pub use progress::{Coming, Progress, next_coming};
pub use source::{Entered, Source};
