//! What lies outside the program as the system has it: the database file, the files of changelogs, the
//! clock, and the outputs, each by its trait of `lq_outside`.
#![tactic(auto)]

mod file_disk;
mod host_clock;
mod host_files;
mod stream;
mod walk;

pub use file_disk::FileDisk;
pub use host_clock::HostClock;
pub use host_files::HostFiles;
pub use stream::Stream;
