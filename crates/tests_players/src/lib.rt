//! Tests of commands that take their steps beside others in any given order, over one database in memory:
//! what each answers, and what their journal holds in the end.
#![tactic(auto)]

#[cfg(test)]
mod alone;
#[cfg(test)]
mod beside;
#[cfg(test)]
mod drilled;
#[cfg(test)]
mod faults;
#[cfg(test)]
mod full;
#[cfg(test)]
mod given;
#[cfg(test)]
mod interleaved;
#[cfg(test)]
mod lines;
#[cfg(test)]
mod places;
#[cfg(test)]
mod players;
#[cfg(test)]
mod released;
#[cfg(test)]
mod rows;
#[cfg(test)]
mod shown;
#[cfg(test)]
mod steps;
#[cfg(test)]
mod updates;
