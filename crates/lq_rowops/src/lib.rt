//! What INSERT and UPDATE do.
#![tactic(auto)]

mod changing;
mod edit;
mod inserting;
mod orphan;
mod row;
mod setting;
mod stray;
mod tested;
mod twins;
mod updating;

pub use inserting::insert_into;
pub use updating::update;
