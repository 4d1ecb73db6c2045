//! What the statements of keys, constraints and indexes do.
#![tactic(auto)]

mod adding;
mod anywhere;
mod dropping;
mod ending;
mod equal;
mod foreign;
mod lists;
mod names;
mod primary;
mod targets;

pub use adding::{add_unique, create_index};
pub use anywhere::drop_index;
pub use dropping::{
    drop_constraint, drop_foreign_key, drop_index_of, drop_primary_key, drop_unique,
};
pub use foreign::add_foreign_key;
pub use primary::add_primary_key;
