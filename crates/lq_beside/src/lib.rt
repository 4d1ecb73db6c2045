//! What a statement does beside the tracking tables.
#![tactic(auto)]

mod laws;

pub use laws::{
    clear_fits, journal_replays, nothing_stands, queries_see, release_fits, rollback_fits,
    rows_answered, statements_tell, sync_fits, tag_fits, update_fits, users_beside,
};
