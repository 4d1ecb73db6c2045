//! The test whether a row lacks its parent by a foreign key, over tables as the engine keeps them.
#![tactic(auto)]

mod orphan;

pub use orphan::has_orphans;
