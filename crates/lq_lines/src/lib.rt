//! The file of a drill: command lines, and the order in which they take their steps.
#![tactic(auto)]

mod command;
mod fault;
mod lines;
mod reading;
mod steps;

pub use fault::LinesFault;
pub use lines::Lines;
pub use reading::read_lines;
