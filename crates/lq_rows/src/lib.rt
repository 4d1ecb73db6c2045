//! A table as it is kept: its rows with what undoing needs, and what is known of them for looking up.
#![tactic(auto)]

mod fault;
mod held;
mod pick;
mod print;
mod seen;
mod shape;
mod twin;
mod values;
mod whole;

pub use fault::RunFault;
pub use held::{Held, Row};
pub use pick::{by_name, has_column, has_null, is_null, picked};
pub use seen::see;
pub use shape::Shape;
pub use values::Values;
pub use whole::{are_twins, lacks_one};
