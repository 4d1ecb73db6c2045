// The database file.
ghost use Rattle.std.specs.Prelude.{◌≡◌, None, IfOk, Option, Some, Ok};
ghost use Rattle.lq_outside.specs.Forms.{CountsFault};
ghost use Rattle.lq_host.specs.Host.{unknown, unknown_sound};

use lq_outside::{Disk, DiskFailed};
use std::fs::{self, File, OpenOptions};
use std::io::{self, ErrorKind};
use std::os::unix::fs::FileExt;
use std::path::Path;

/// A file of the system, or one that could not be opened, of which every call fails. Its advisory
/// lock is held until it is dropped. Where it could not be opened for writing every write fails.
#[derive(Drop)]
pub struct FileDisk {
    file: Option<File>,
    faults: u64,
}

impl FileDisk {
    /// Opens the file at a path, for reading alone where it cannot be written. An absent file is made
    /// empty. A file that another program has open in this way cannot be opened, unless both only
    /// read.
    pub fn open(rt: &HostRuntime, path: &str) -> FileDisk {
        FileDisk {
            file: open_or_make(rt, path).ok(),
            faults: 0,
        }
    }

    /// How many calls have failed.
    pub fn faults(&self) -> u64
        ensures { result ≡ ⟦<FileDisk as Disk>⟧.faults self.now }
    {
        self.faults
    }
}

fn open_or_make(rt: &HostRuntime, path: &str) -> io::Result<File> {
    let file = open_locked(rt, path)?;
    if len(&file)? == 0 {
        // A new file outlasts a crash once its folder is synced too. Not every file system can do
        // that, so a failure is none of the database file.
        let _synced = sync_folder(rt, Path::new(path));
    }
    Ok(file)
}

fn open_locked(rt: &HostRuntime, path: &str) -> io::Result<File> {
    match OpenOptions::new()
        .read(true)
        .write(true)
        .create(true)
        .open(rt, path)
    {
        Ok(opened) => {
            let file = kept(opened)?;
            file.try_lock()?;
            Ok(file)
        }
        Err(_) => open_to_read(rt, path),
    }
}

// With a lock that others who only read may have at the same time. What is no file is not opened: a
// pipe would wait for its writer.
fn open_to_read(rt: &HostRuntime, path: &str) -> io::Result<File> {
    if !fs::metadata(rt, path)?.is_file() {
        return Err(ErrorKind::Unsupported.into());
    }
    let file = kept(File::open(rt, path)?)?;
    file.try_lock_shared()?;
    Ok(file)
}

// Where a standard stream is closed the file gets its descriptor, and what is printed would be written
// over the database. A duplicate's descriptor is at least 3.
fn kept(opened: File) -> io::Result<File> {
    opened.try_clone()
}

fn sync_folder(rt: &HostRuntime, path: Path<'_>) -> io::Result<()> {
    match path.parent() {
        Some(folder) if !folder.as_str().is_empty() => File::open(rt, folder)?.sync_all(),
        _ => File::open(rt, ".")?.sync_all(),
    }
}

fn len(file: &File) -> io::Result<u64> {
    Ok(file.metadata()?.len())
}

// Counts a call that failed, or that found no file.
fn count<T: Drop>(answer: Option<io::Result<T>>, faults: &mut u64) -> Result<T, DiskFailed>
    ensures value { IfOk result (λ value. answer ≡ Some (Ok value)) }
    ensures faults { CountsFault result faults.old faults.new }
{
    match answer {
        Some(Ok(value)) => Ok(value),
        _ => {
            *faults = faults.saturating_add(1);
            Err(DiskFailed)
        }
    }
}

impl Disk for FileDisk {
    ghost told = { λ _. None };

    ghost faults = { λ disk. disk.faults };

    ghost crashes = { λ _. unknown };

    ghost sound = { λ _. unknown_sound };

    fn size(&mut self) -> Result<u64, DiskFailed> {
        count(self.file.as_ref().map(len), &mut self.faults)
    }

    fn read(&mut self, at: u64, into: &mut [u8]) -> Result<(), DiskFailed> {
        let answer = match &self.file {
            Some(file) => Some(file.read_exact_at(into, at)),
            None => None,
        };
        count(answer, &mut self.faults)
    }

    fn write_at(&mut self, at: u64, bytes: &[u8]) -> Result<(), DiskFailed> {
        let answer = match &self.file {
            Some(file) => Some(file.write_all_at(bytes, at)),
            None => None,
        };
        count(answer, &mut self.faults)
    }

    fn sync(&mut self) -> Result<(), DiskFailed> {
        count(self.file.as_ref().map(File::sync_all), &mut self.faults)
    }
}
