//! What DELETE does, with the rows that go with their parents.
#![tactic(auto)]

mod cascade;
mod deleting;
mod edges;
mod loss;
mod orphan;
mod places;
mod spread;
mod taking;
mod tested;

pub use deleting::delete_from;
