//! Tests of the texts of commands and of the lines of the log.
#![tactic(auto)]

#[cfg(test)]
mod changelog_lines;
#[cfg(test)]
mod drills;
#[cfg(test)]
mod made;
#[cfg(test)]
mod outputs;
#[cfg(test)]
mod run_lines;
