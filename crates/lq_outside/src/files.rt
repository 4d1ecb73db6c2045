ghost use Rattle.std.specs.Prelude.{◌≡◌, ◌≤◌, ℕ, List, Option, IfSome, IfOk, IsErrOf, OnOk};
ghost use Rattle.lq_outside.specs.Forms.{Rose, IsFound, IsListing, IsWithinLimit};
ghost use Rattle.lq_outside.specs.declared.files.FilesFault.TheVariants.{Failed};

use lq_base::{Items, Text};
use thiserror::Error;

/// Why files could not be read.
#[derive(Clone, Copy, Debug, PartialEq, Eq, Error)]
pub enum FilesFault {
    #[error("the files cannot be read")]
    Failed,
    #[error("out of memory")]
    OutOfMemory,
}

/// What a path leads to.
#[derive(Drop)]
pub enum Found {
    /// The file's bytes, at most 16,777,216.
    Bytes(Items<u8>),
    /// There is no such file.
    Absent,
    /// The file has more than 16,777,216 bytes.
    TooLong,
}

/// Files by their paths. No call changes one.
pub trait Files {
    /// What each path holds, where the files are told.
    ghost told: { Self → Option (List ℕ → Option (List ℕ)) };

    /// How many calls have failed. At the greatest u64 it stays.
    ghost faults: { Self → ℕ };

    /// The file at a path.
    fn read(&mut self, path: &str) -> Result<Found, FilesFault>
        ensures found { IfSome (told self.old) (λ files. IfOk result (IsFound (files path.now))) }
        ensures limit { IfOk result IsWithinLimit }
        ensures told { told self.new ≡ told self.old }
        ensures later { faults self.old ≤ faults self.new }
        ensures failed { IsErrOf result Failed → Rose (faults self.old) (faults self.new) }
        ensures stays { OnOk result (faults self.new ≡ faults self.old) };

    /// The paths of all files under a folder, subfolders included, in any order. They begin with the
    /// folder and a `/`. The empty text is the current folder, under which lie the paths that do not
    /// begin with a `/`. The answer is empty where there is no such folder.
    fn list(&mut self, folder: &str) -> Result<Items<Text>, FilesFault>
        ensures listing { IfSome (told self.old)
            (λ files. IfOk result (IsListing files folder.now)) }
        ensures told { told self.new ≡ told self.old }
        ensures later { faults self.old ≤ faults self.new }
        ensures failed { IsErrOf result Failed → Rose (faults self.old) (faults self.new) }
        ensures stays { OnOk result (faults self.new ≡ faults self.old) };
}
