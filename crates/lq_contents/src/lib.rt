//! What stands in the files of a changelog beside its changesets: their trees, and the changelog's own
//! preconditions.
#![tactic(auto)]

mod own;
mod tree;

pub use own::own_reaction;
pub use tree::tree_of;
