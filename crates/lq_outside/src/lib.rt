//! What lies outside the program: files, the disk, the clock and outputs, as traits that say what may
//! fail and what a crash may leave, and their forms in memory.
#![tactic(auto)]

mod calls;
mod clock;
mod disk;
mod files;
mod folder;
mod fuse;
mod mem_disk;
mod mem_files;
mod mem_sink;
mod pieces;
mod plan;
mod refused;
mod set_clock;
mod sink;
mod sure_disk;
mod sure_files;
mod sure_sink;

pub use clock::Clock;
pub use disk::{Disk, DiskFailed};
pub use files::{Files, FilesFault, Found};
pub use fuse::Fuse;
pub use mem_disk::MemDisk;
pub use mem_files::MemFiles;
pub use mem_sink::MemSink;
pub use pieces::write_all;
pub use refused::LoadRefused;
pub use set_clock::SetClock;
pub use sink::{Sink, SinkFailed};
pub use sure_disk::SureDisk;
pub use sure_files::SureFiles;
pub use sure_sink::SureSink;
