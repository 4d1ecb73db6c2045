// The files that changelogs are read from.
ghost use Rattle.std.specs.Prelude.{◌≡◌, ◌≤◌, None, Ok, IfOk, IsErrOf, OnOk};
ghost use Rattle.lq_outside.specs.Forms.{Rose, IsWithinLimit};
ghost use Rattle.lq_outside.specs.declared.files.FilesFault.TheVariants.{Failed};

use crate::walk::files_under;
use lq_base::{Items, Text};
use lq_outside::{Files, FilesFault, Found};
use std::fs::File;
use std::io::{self, ErrorKind, Read};

// The bytes of a file at most.
const MAX_LEN: u64 = 16_777_216;

/// The files of the system. A path that begins with no slash starts at the current folder.
#[derive(Drop)]
pub struct HostFiles<'a> {
    rt: &'a HostRuntime,
    faults: u64,
}

impl<'a> HostFiles<'a> {
    pub fn new(rt: &'a HostRuntime) -> HostFiles<'a> {
        HostFiles { rt, faults: 0 }
    }

    /// How many calls have failed.
    pub fn faults(&self) -> u64
        ensures { result ≡ ⟦<HostFiles<'a> as Files>⟧.faults self.now }
    {
        self.faults
    }
}

// The file at a path. A folder is no file.
fn open(rt: &HostRuntime, path: &str) -> io::Result<Option<File>> {
    let file = match File::open(rt, path) {
        Ok(file) => file,
        Err(error) => match error.kind() {
            // No file has a name that is longer than the system's files may have.
            ErrorKind::NotFound | ErrorKind::NotADirectory | ErrorKind::InvalidFilename => {
                return Ok(None);
            }
            _ => return Err(error),
        },
    };
    if file.metadata()?.is_dir() {
        return Ok(None);
    }
    Ok(Some(file))
}

fn read_found(rt: &HostRuntime, path: &str) -> io::Result<Found>
    ensures limit { IfOk result IsWithinLimit }
{
    let Some(file) = open(rt, path)? else {
        return Ok(Found::Absent);
    };
    let mut bytes = Vec::new(rt.alloc());
    file.take(MAX_LEN + 1).read_to_end(&mut bytes)?;
    if bytes.len() as u64 > MAX_LEN {
        return Ok(Found::TooLong);
    }
    Ok(Found::Bytes(Items::from_vec(bytes)))
}

// Counts a call that failed. Want of memory is no fault of the files.
fn count<T: Drop>(answer: io::Result<T>, faults: &mut u64) -> Result<T, FilesFault>
    ensures value { IfOk result (λ value. answer ≡ Ok value) }
    ensures later { faults.old ≤ faults.new }
    ensures failed { IsErrOf result Failed → Rose faults.old faults.new }
    ensures stays { OnOk result (faults.new ≡ faults.old) }
{
    match answer {
        Ok(value) => Ok(value),
        Err(error) if error.kind() == ErrorKind::OutOfMemory => Err(FilesFault::OutOfMemory),
        Err(_) => {
            *faults = faults.saturating_add(1);
            Err(FilesFault::Failed)
        }
    }
}

impl Files for HostFiles<'_> {
    ghost told = { λ _. None };

    ghost faults = { λ files. files.faults };

    fn read(&mut self, path: &str) -> Result<Found, FilesFault> {
        count(read_found(self.rt, path), &mut self.faults)
    }

    fn list(&mut self, folder: &str) -> Result<Items<Text>, FilesFault> {
        count(files_under(self.rt, folder), &mut self.faults)
    }
}
