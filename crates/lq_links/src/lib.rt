//! Rows in linked nodes, and the steps that change the links and undo that.
#![tactic(auto)]

mod done;
mod links;
mod node;
mod refused;
mod steps;

pub use done::Done;
pub use node::{Finger, Links, Node, Spot};
pub use refused::Refused;
pub use steps::{next, prev};
