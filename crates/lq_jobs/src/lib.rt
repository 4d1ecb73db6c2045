//! A job on the bytes of a database's file: opened and run, printed on a copy, snapshotted, undone, generated from.
#![tactic(auto)]

mod changelogs;
mod copying;
mod entrants;
mod generating;
mod opening;
mod snapshotting;
mod undoing;

pub use changelogs::{changelog_of, file_status, part_for};
pub use copying::{Printing, copy_status, on_copy};
pub use entrants::{Drilling, Entrant};
pub use generating::generate_on;
pub use opening::{LIMIT, Worked, load_status, on_disk};
pub use snapshotting::snapshot_on;
pub use undoing::undo_on;
