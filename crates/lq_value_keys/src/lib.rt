//! The four keys by which a change states a value, read and written.
#![tactic(auto)]

mod value_keys;

pub use value_keys::{ValueAt, default_at, default_value, stated_value, value_at};
