//! The texts of commands: what they write to their output, and the lines of the log.
#![tactic(auto)]

mod changelog_log;
mod cleared;
mod drill;
mod fixed;
mod happened;
mod history;
pub mod laws;
mod lock;
mod log_line;
mod mark;
mod parts;
mod printed;
mod run_log;
mod snapshot;
mod soak;
mod status;
mod validation_log;

pub use changelog_log::{
    append_dialect_fault, append_file_fault, append_key_fault, append_line_fault, append_no_file,
};
pub use cleared::cleared_text;
pub use drill::{Drilled, drill_text};
pub use fixed::{FixedLine, validated_text};
pub use happened::{rollback_text, sync_text, update_text};
pub use history::history_text;
pub use lock::{append_locked, release_text};
pub use mark::{Form, Mark, mark_of, mark_text};
pub use printed::sql_text;
pub use run_log::{
    append_busy, append_damaged, append_full, append_halted, append_no_tag, append_not_reversible,
    append_not_writable, append_refused, append_warning,
};
pub use snapshot::snapshot_text;
pub use soak::{Soaked, soak_text};
pub use status::{status_text, tagged_text, undone_text};
pub use validation_log::{append_changed, append_twice};
