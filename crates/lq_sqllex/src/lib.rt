//! The lexemes of SQL in both dialects, and a text cut into its pieces.
#![tactic(auto)]

mod comment;
mod fault;
pub mod laws;
mod length;
mod lexeme;
mod pieces;
mod quoted;
mod sort;
mod trivia;

pub use fault::SplitFault;
pub use length::length_at;
pub use lexeme::{Lexeme, lexeme_at};
pub use pieces::split;
pub use sort::sort_at;
pub use trivia::is_trivia;
