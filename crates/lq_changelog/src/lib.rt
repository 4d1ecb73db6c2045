//! The changelog that files hold.
#![tactic(auto)]

mod gathered;
mod gathering;
mod item;
pub mod laws;
mod loading;
mod sql_parts;
mod texts;

pub use loading::load;
