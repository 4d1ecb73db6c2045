//! Tests of what is read from files: formatted SQL.
#![tactic(auto)]

#[cfg(test)]
mod faults;
#[cfg(test)]
mod files;
#[cfg(test)]
mod shown;
#[cfg(test)]
mod trees;
