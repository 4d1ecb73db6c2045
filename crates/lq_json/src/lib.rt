//! JSON text read straight into a tree.
#![tactic(auto)]

mod members;
mod numbers;
mod reading;

pub use reading::read_json;
