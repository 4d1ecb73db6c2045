//! What every statement is asked on a sound catalogue, and the verdict on it.
#![tactic(auto)]

mod columns;
mod names;
mod tests;

pub use columns::{lacks_column, repeats};
pub use names::{
    any_is_foreign, any_is_inner, is_constraint, is_foreign, is_index, is_index_inside, is_key,
    is_unique, is_unique_or_index, takes_lock_key,
};
pub use tests::Tests;
