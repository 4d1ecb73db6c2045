//! What conditions tell, and how what several of them tell is joined.
#![tactic(auto)]

mod count;
mod fault;
mod told;

pub use count::{is_count, is_zero};
pub use fault::CondFault;
pub use told::{all_hold, none_holds, one_holds, with_told};
