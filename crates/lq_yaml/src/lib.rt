//! YAML: the tree that a file's lines lay out.
#![tactic(auto)]

mod block;
mod builder;
mod chars;
mod entry;
mod fault;
mod front;
mod laws;
mod line;
mod mode;
mod part;
mod place;
mod plain;
mod quoted;
mod reading;
mod token;

pub use fault::YamlFault;
pub use laws::{contents, examples, laid_out, one_tree, scalars, tokens};
pub use reading::read_yaml;
