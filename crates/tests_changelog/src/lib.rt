//! Tests of what files of a changelog are loaded as: files, includes, properties, changesets and
//! conditions in the three formats, and each fault's line of the log.
#![tactic(auto)]

#[cfg(test)]
mod asked;
#[cfg(test)]
mod faults;
#[cfg(test)]
mod formats;
#[cfg(test)]
mod includes;
#[cfg(test)]
mod loads;
#[cfg(test)]
mod properties;
#[cfg(test)]
mod read_faults;
#[cfg(test)]
mod sets;
#[cfg(test)]
mod sql_files;
