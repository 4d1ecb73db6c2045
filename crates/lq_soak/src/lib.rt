//! The soak: a made changelog run there and back on a disk in memory.
#![tactic(auto)]

mod soaking;

pub use soaking::{Seed, soak};
