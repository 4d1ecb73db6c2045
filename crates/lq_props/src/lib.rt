//! Properties of a changelog: their values by scope, and texts with the values put in.
#![tactic(auto)]

mod props;
mod replacing;
mod scope;
mod values;

pub use props::Props;
pub use scope::Scope;
