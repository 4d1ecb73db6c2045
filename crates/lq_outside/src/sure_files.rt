ghost use Rattle.std.specs.Prelude.{◌≡◌, ◌≤◌, Some, IfSome, IfOk, IsErrOf, OnOk};
ghost use Rattle.lq_outside.specs.Forms.{Rose, held_in, IsFound, IsListing, IsWithinLimit};
ghost use Rattle.lq_outside.specs.declared.files.FilesFault.TheVariants.{Failed};

use crate::folder::{find, paths_under};
use crate::{Files, FilesFault, Found};
use lq_base::{Items, Text};
use std::alloc::Global;

/// Files in memory that fail for want of memory alone.
#[derive(Drop)]
pub struct SureFiles {
    alloc: Global,
    files: Items<(Text, Items<u8>)>,
}

impl SureFiles {
    /// Files by their paths. Of two with one path the first is there.
    pub fn new(alloc: Global, files: Items<(Text, Items<u8>)>) -> SureFiles
        ensures { ⟦<SureFiles as Files>⟧.told result ≡ Some (held_in files) }
    {
        SureFiles { alloc, files }
    }
}

impl Files for SureFiles {
    ghost told = { λ f. Some (held_in f.files) };

    ghost faults = { λ f. 0 };

    fn read(&mut self, path: &str) -> Result<Found, FilesFault>
        ensures found { IfSome (⟦<SureFiles as Files>⟧.told self.old)
            (λ files. IfOk result (IsFound (files path.now))) }
        ensures limit { IfOk result IsWithinLimit }
        ensures told { ⟦<SureFiles as Files>⟧.told self.new
            ≡ ⟦<SureFiles as Files>⟧.told self.old }
        ensures later { ⟦<SureFiles as Files>⟧.faults self.old
            ≤ ⟦<SureFiles as Files>⟧.faults self.new }
        ensures failed { IsErrOf result Failed
            → Rose (⟦<SureFiles as Files>⟧.faults self.old)
            (⟦<SureFiles as Files>⟧.faults self.new) }
        ensures stays { OnOk result
            (⟦<SureFiles as Files>⟧.faults self.new
            ≡ ⟦<SureFiles as Files>⟧.faults self.old) }
        ensures sure { IsErrOf result Failed → ⊥ }
    {
        match find(self.alloc, self.files.as_slice(), path) {
            Ok(found) => Ok(found),
            Err(_) => Err(FilesFault::OutOfMemory),
        }
    }

    fn list(&mut self, folder: &str) -> Result<Items<Text>, FilesFault>
        ensures listing { IfSome (⟦<SureFiles as Files>⟧.told self.old)
            (λ files. IfOk result (IsListing files folder.now)) }
        ensures told { ⟦<SureFiles as Files>⟧.told self.new
            ≡ ⟦<SureFiles as Files>⟧.told self.old }
        ensures later { ⟦<SureFiles as Files>⟧.faults self.old
            ≤ ⟦<SureFiles as Files>⟧.faults self.new }
        ensures failed { IsErrOf result Failed
            → Rose (⟦<SureFiles as Files>⟧.faults self.old)
            (⟦<SureFiles as Files>⟧.faults self.new) }
        ensures stays { OnOk result
            (⟦<SureFiles as Files>⟧.faults self.new
            ≡ ⟦<SureFiles as Files>⟧.faults self.old) }
        ensures sure { IsErrOf result Failed → ⊥ }
    {
        match paths_under(self.alloc, self.files.as_slice(), folder) {
            Ok(paths) => Ok(paths),
            Err(_) => Err(FilesFault::OutOfMemory),
        }
    }
}
