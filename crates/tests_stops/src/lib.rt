//! Tests of stops: what a command that is stopped at any call of the disk leaves, and how it goes on.
#![tactic(auto)]

#[cfg(test)]
mod commits;
#[cfg(test)]
mod dates;
#[cfg(test)]
mod implicit;
#[cfg(test)]
mod journal;
#[cfg(test)]
mod mending;
#[cfg(test)]
mod places;
#[cfg(test)]
mod rehearsals;
#[cfg(test)]
mod running;
#[cfg(test)]
mod shop;
#[cfg(test)]
mod snapshots;
#[cfg(test)]
mod stops;
#[cfg(test)]
mod undone;
