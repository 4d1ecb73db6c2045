//! Tests of the engine: statements in the texts of both dialects, what they answer and leave, and that
//! they are taken back.
#![tactic(auto)]

#[cfg(test)]
mod definitions;
#[cfg(test)]
mod full;
#[cfg(test)]
mod mysql;
#[cfg(test)]
mod rows;
#[cfg(test)]
mod schemas;
#[cfg(test)]
mod shown;
#[cfg(test)]
mod tried;
