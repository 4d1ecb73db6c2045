//! Queries and the tests of rows.
#![tactic(auto)]

mod asked;
mod cell;
mod order;
mod pick;
mod reading;
mod refusal;
mod sort;
mod source;
mod truth;

pub use asked::{answer, answer_by};
pub use refusal::is_reserved;
pub use source::{Shown, Source};
pub use truth::{is_taken, kinds_agree, lacks_column, test_row};
