//! Small implementations of lq_model's traits, which show that the traits can be met: a look at a
//! catalogue without objects, a change that makes a sequence, and SQL text without spaces at its front.
#![tactic(auto)]

mod new_sequence;
mod no_objects;
mod trimmed;

pub use new_sequence::NewSequence;
pub use no_objects::NoObjects;
pub use trimmed::Trimmed;
