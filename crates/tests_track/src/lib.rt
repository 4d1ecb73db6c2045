//! Tests of the tracking tables: what makes and writes them, and what is read of them.
#![tactic(auto)]

#[cfg(test)]
mod one_table;
#[cfg(test)]
mod reading;
#[cfg(test)]
mod track;
