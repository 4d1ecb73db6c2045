//! Tests of preconditions: how they are read, and what they tell of a small database.
#![tactic(auto)]

#[cfg(test)]
mod database;
#[cfg(test)]
mod joined;
#[cfg(test)]
mod kinds;
#[cfg(test)]
mod reading;
#[cfg(test)]
mod shown;
#[cfg(test)]
mod sql_checks;
#[cfg(test)]
mod tracking;
