//! A stored checksum of the old form or the new one against those of a changeset.
#![tactic(auto)]

mod stored;

pub use stored::{is_to_fill, sum_by_form};
