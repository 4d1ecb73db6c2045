//! Tests of what commands decide before they run: what is wrong with a changelog, what each changeset
//! is to do, which are selected, what a rollback takes back and how, and the rows that are written.
#![tactic(auto)]

#[cfg(test)]
mod asked;
#[cfg(test)]
mod given;
#[cfg(test)]
mod planned;
#[cfg(test)]
mod recorded;
#[cfg(test)]
mod reversed;
#[cfg(test)]
mod rows;
#[cfg(test)]
mod selected;
#[cfg(test)]
mod shown;
#[cfg(test)]
mod statements;
#[cfg(test)]
mod stays;
#[cfg(test)]
mod sums;
#[cfg(test)]
mod validated;
#[cfg(test)]
mod written;
