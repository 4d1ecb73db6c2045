//! Tests of the system's files, database file, clock and outputs.
#![tactic(auto)]

#[cfg(test)]
mod file_disk;
#[cfg(test)]
mod host_clock;
#[cfg(test)]
mod host_files;
#[cfg(test)]
mod stream;
