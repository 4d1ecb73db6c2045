//! A player that makes no call: it meets the trait of players.
#![tactic(auto)]

mod looker;

pub use looker::{Looked, Looker};
