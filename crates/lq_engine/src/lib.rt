//! The engine: a catalogue that statements change, and that can go back.
#![tactic(auto)]

mod apart;
mod arms;
mod definition;
mod engine;
mod executor;
mod fault;
mod look;
mod names;
mod source;

pub use engine::Engine;
pub use fault::PartsFault;
pub use names::Sort;
