//! What the commands do: what each changeset does at its turn, the calls that a command makes, and
//! what these leave, in both ways of committing.
#![tactic(auto)]

mod answer;
mod call;
mod choice;
mod deed;
mod fault;
mod laws;
mod stamp;
mod stop;
mod turn;

pub use answer::{Answer, Step};
pub use call::Call;
pub use choice::{Choice, What};
pub use deed::{Deed, OnLock, OnRows};
pub use fault::Fault;
pub use laws::{
    bare_names_have_no_mark, clear_leaves, faultless_are_apart, faultless_knows,
    first_calls_are_left, fronts_are_left, fronts_are_turns, goes_on, journal_holds, journal_leads,
    marks_are_read, only_releases_are_early, release_leaves, resumed_returns, rollback_leaves,
    rollback_restores, rollback_resumes, rollback_stops, runs_on, schedules_are_serial,
    schedules_lead, sync_leaves, sync_stops, tag_keeps, tag_leaves, update_leaves, update_resumes,
    update_runs, update_stops,
};
pub use stamp::Stamp;
pub use stop::{Refusal, Stop};
pub use turn::Turn;
