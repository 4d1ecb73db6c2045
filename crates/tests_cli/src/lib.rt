//! Tests of the command line.
#![tactic(auto)]

#[cfg(test)]
mod drills;
#[cfg(test)]
mod lines;
#[cfg(test)]
mod options;
#[cfg(test)]
mod shown;
#[cfg(test)]
mod targets;
#[cfg(test)]
mod values;
