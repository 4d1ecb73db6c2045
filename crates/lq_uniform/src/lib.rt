//! An SQL text without the blanks that do not count in it.
#![tactic(auto)]

mod uniform;

pub use uniform::{append_uniform, is_quote, is_space};
