//! The change types of views and sequences.
#![tactic(auto)]

mod create_sequence;
mod create_view;
mod drop_sequence;
mod drop_view;
mod query_text;
mod rename_sequence;
mod rename_view;
mod sequences;

pub use create_sequence::CreateSequence;
pub use create_view::CreateView;
pub use drop_sequence::DropSequence;
pub use drop_view::DropView;
pub use query_text::QueryText;
pub use rename_sequence::RenameSequence;
pub use rename_view::RenameView;
