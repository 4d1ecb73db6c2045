use lq_base::{Command, Items};
use lq_commands::Asked;

/// A command of a drill, and what its words and its files give it.
#[derive(Drop)]
pub struct Entrant {
    pub command: Command,
    pub asked: Asked,
}

/// What the file of a drill asks for, with what the files of its commands give.
#[derive(Drop)]
pub struct Drilling {
    /// In the order of their numbers, from 1.
    pub entrants: Items<Entrant>,
    /// The number of a command for each step.
    pub steps: Items<u32>,
}
