//! Paths of the files of a changelog, and what their endings say.
#![tactic(auto)]

mod path;

pub use path::{Format, format_of, is_xml, joined, plain};
