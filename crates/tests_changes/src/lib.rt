//! Tests of all types of changes: what each says in both dialects, and the faults of what is none.
#![tactic(auto)]

#[cfg(test)]
mod columns;
#[cfg(test)]
mod default_names;
#[cfg(test)]
mod faults;
#[cfg(test)]
mod keys;
#[cfg(test)]
mod loads;
#[cfg(test)]
mod objects;
#[cfg(test)]
mod rows;
#[cfg(test)]
mod schemas;
#[cfg(test)]
mod shown;
#[cfg(test)]
mod tables;
