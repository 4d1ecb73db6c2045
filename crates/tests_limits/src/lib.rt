//! Tests of what files of a changelog are loaded as at their limits: lengths, levels, depths, names,
//! paths and bytes.
#![tactic(auto)]

#[cfg(test)]
mod asked;
#[cfg(test)]
mod bytes;
#[cfg(test)]
mod depths;
#[cfg(test)]
mod lengths;
#[cfg(test)]
mod levels;
#[cfg(test)]
mod limits;
#[cfg(test)]
mod made;
#[cfg(test)]
mod names;
#[cfg(test)]
mod paths;
#[cfg(test)]
mod uses;
