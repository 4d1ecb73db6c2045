//! Each name that a database's objects have is a name: contracts that say so.
#![tactic(auto)]

mod named;

pub use named::names_hold;
