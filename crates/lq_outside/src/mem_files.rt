ghost use Rattle.std.specs.Prelude.{◌≡◌, ◌≤◌, ◌↔◌, Some, IfSome, IfOk, IsErrOf, IsTrue, OnOk};
ghost use Rattle.lq_outside.specs.Forms.{Rose, held_in, IsFound, IsListing, IsWithinLimit};
ghost use Rattle.lq_outside.specs.Plan.{fails, plan_of_files, GoesOn, Starts};
ghost use Rattle.lq_outside.specs.declared.files.FilesFault.TheVariants.{Failed};

use crate::plan::Plan;
use crate::{Files, FilesFault, Found, SureFiles};
use lq_base::{Items, Text};
use std::alloc::Global;

/// Files in memory, of which some calls are to fail.
#[derive(Drop)]
pub struct MemFiles {
    files: SureFiles,
    plan: Plan,
}

impl MemFiles {
    /// Files by their paths. Of two with one path the first is there. `fail` has the numbers, from 1,
    /// of the calls that are to fail.
    pub fn new(alloc: Global, files: Items<(Text, Items<u8>)>, fail: Vec<u64>) -> MemFiles
        ensures told { ⟦<MemFiles as Files>⟧.told result ≡ Some (held_in files) }
        ensures plan { Starts fail.items (plan_of_files result) }
    {
        MemFiles {
            files: SureFiles::new(alloc, files),
            plan: Plan::new(fail),
        }
    }
}

impl Files for MemFiles {
    ghost told = { λ f. ⟦<SureFiles as Files>⟧.told f.files };

    ghost faults = { λ f. f.plan.refused };

    fn read(&mut self, path: &str) -> Result<Found, FilesFault>
        ensures found { IfSome (⟦<MemFiles as Files>⟧.told self.old)
            (λ files. IfOk result (IsFound (files path.now))) }
        ensures limit { IfOk result IsWithinLimit }
        ensures told { ⟦<MemFiles as Files>⟧.told self.new
            ≡ ⟦<MemFiles as Files>⟧.told self.old }
        ensures later { ⟦<MemFiles as Files>⟧.faults self.old
            ≤ ⟦<MemFiles as Files>⟧.faults self.new }
        ensures failed { IsErrOf result Failed
            → Rose (⟦<MemFiles as Files>⟧.faults self.old)
            (⟦<MemFiles as Files>⟧.faults self.new) }
        ensures stays { OnOk result
            (⟦<MemFiles as Files>⟧.faults self.new
            ≡ ⟦<MemFiles as Files>⟧.faults self.old) }
        ensures planned { IsErrOf result Failed ↔ IsTrue (fails (plan_of_files self.old)) }
        ensures plan { GoesOn (plan_of_files self.old) (plan_of_files self.new) }
    {
        self.plan.pass()?;
        self.files.read(path)
    }

    fn list(&mut self, folder: &str) -> Result<Items<Text>, FilesFault>
        ensures listing { IfSome (⟦<MemFiles as Files>⟧.told self.old)
            (λ files. IfOk result (IsListing files folder.now)) }
        ensures told { ⟦<MemFiles as Files>⟧.told self.new
            ≡ ⟦<MemFiles as Files>⟧.told self.old }
        ensures later { ⟦<MemFiles as Files>⟧.faults self.old
            ≤ ⟦<MemFiles as Files>⟧.faults self.new }
        ensures failed { IsErrOf result Failed
            → Rose (⟦<MemFiles as Files>⟧.faults self.old)
            (⟦<MemFiles as Files>⟧.faults self.new) }
        ensures stays { OnOk result
            (⟦<MemFiles as Files>⟧.faults self.new
            ≡ ⟦<MemFiles as Files>⟧.faults self.old) }
        ensures planned { IsErrOf result Failed ↔ IsTrue (fails (plan_of_files self.old)) }
        ensures plan { GoesOn (plan_of_files self.old) (plan_of_files self.new) }
    {
        self.plan.pass()?;
        self.files.list(folder)
    }
}
