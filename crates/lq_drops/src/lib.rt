//! What drops a foreign key or an index.
#![tactic(auto)]

mod drops;

pub use drops::{foreign_drop, index_drop};
