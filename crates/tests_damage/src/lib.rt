//! Tests of journals that are opened again, with their engine, on a disk in memory: damage, the last
//! text, and states.
#![tactic(auto)]

#[cfg(test)]
mod damage;
#[cfg(test)]
mod last;
#[cfg(test)]
mod snapshots;
