//! Tests of the calls that take, tag and free, and of a command's steps, where other sessions are there:
//! over a database on a disk in memory.
#![tactic(auto)]

#[cfg(test)]
mod beside;
#[cfg(test)]
mod calls;
#[cfg(test)]
mod faults;
#[cfg(test)]
mod opened;
#[cfg(test)]
mod play;
