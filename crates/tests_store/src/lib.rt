//! Tests of a database in a journal, with its engine, on a disk in memory: sessions, commit modes, room
//! and disk faults.
#![tactic(auto)]

#[cfg(test)]
mod faults;
#[cfg(test)]
mod room;
#[cfg(test)]
mod sessions;
