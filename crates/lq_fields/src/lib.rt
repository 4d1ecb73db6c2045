//! The fields of a file of separated fields as literals.
#![tactic(auto)]

mod literals;

pub use literals::literals_of;
