//! A catalogue as the engine keeps it, filled with the objects of a state.
#![tactic(auto)]

mod order;
mod rows;
mod tables;
mod turned;
mod views;
mod whole;

pub use order::rise;
pub use whole::{are_in_order, filled};
