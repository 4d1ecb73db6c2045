//! Tests of the commands, from their words to what they leave and tell.
#![tactic(auto)]

#[cfg(test)]
mod changelogs;
#[cfg(test)]
mod cleared;
#[cfg(test)]
mod commands;
#[cfg(test)]
mod conditions;
#[cfg(test)]
mod drill_files;
#[cfg(test)]
mod drills;
#[cfg(test)]
mod faults;
#[cfg(test)]
mod fresh;
#[cfg(test)]
mod full;
#[cfg(test)]
mod generated;
#[cfg(test)]
mod loads;
#[cfg(test)]
mod memory;
#[cfg(test)]
mod parts;
#[cfg(test)]
mod real;
#[cfg(test)]
mod refusals;
#[cfg(test)]
mod rehearsals;
#[cfg(test)]
mod running;
#[cfg(test)]
mod schemas;
#[cfg(test)]
mod shop;
#[cfg(test)]
mod snapshots;
#[cfg(test)]
mod soak;
#[cfg(test)]
mod stops;
