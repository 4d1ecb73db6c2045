//! The words of an expression over names, and the operators that join its parts.
#![tactic(auto)]

mod operator;
mod word;

pub use operator::Operator;
pub use word::Word;
