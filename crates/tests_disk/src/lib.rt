//! Tests of what lies outside the program.
#![tactic(auto)]

#[cfg(test)]
mod outside;
