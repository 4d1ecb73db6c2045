//! What a command decides before it runs: what is wrong with a changelog, and what each changeset
//! is to do.
#![tactic(auto)]

mod head;
mod laws;
mod row_index;
mod seen;
mod turns;
mod validation;

pub use head::Head;
pub use laws::heads_tell;
pub use row_index::{RowIndex, index_of, row_at};
pub use seen::key_of;
pub use turns::{Item, greatest, pending, work};
pub use validation::faults;
