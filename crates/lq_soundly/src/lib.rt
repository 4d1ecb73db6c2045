//! The test whether a catalogue is sound, over its parts as the engine keeps them, and a state that was
//! read as these parts.
#![tactic(auto)]

mod apart;
mod catalogue;
mod foreign;
mod order;
mod restoring;
mod tested;
mod views;
mod whole;

pub use restoring::restored;
