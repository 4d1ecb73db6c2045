//! What a database that was loaded stands for, and that what a command leaves can be loaded.
#![tactic(auto)]

mod laws;

pub use laws::{
    calls_stay_clean, clean_is_found, clean_stands, clear_is_first, places_are_small,
    release_is_first, rollback_is_first, statements_stay_apart, stops_stay_clean, sync_is_first,
    tag_is_first, update_is_first,
};
