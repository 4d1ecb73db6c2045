//! A drill: the steps of several commands on one database, by the file that names them.
#![tactic(auto)]

mod drilling;

pub use drilling::drill;
