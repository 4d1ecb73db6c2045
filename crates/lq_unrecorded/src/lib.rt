//! What a lock tells of the part of a changeset that a stop left without a row: which changeset it is,
//! and which statement.
#![tactic(auto)]

pub mod laws;
mod mark;
mod named;

pub use mark::{holder, is_back, number_within, part_mark};
pub use named::set_marked;
