//! What the statements of views and sequences do.
#![tactic(auto)]

mod creating;
mod names;
mod sequence;
mod view;

pub use creating::create_view;
pub use sequence::{create_sequence, drop_sequence, rename_sequence};
pub use view::{drop_view, rename_view};
