//! The changelog that makes the objects of a database.
#![tactic(auto)]

mod added;
mod created;
mod faults;
mod generating;
mod kinds;
mod rows;
mod sets;
mod users;

pub use generating::{GenerateFault, generate};
