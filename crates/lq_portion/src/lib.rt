//! The part of a changelog that an update runs: up to so many changesets that run, or up to a tag.
#![tactic(auto)]

mod counting;
mod sets;
mod tagged;

pub use counting::counted;
pub use tagged::up_to_tag;
