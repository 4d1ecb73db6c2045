ghost use Rattle.std.specs.Prelude.{◌≡◌, ◌++◌, ◌∷◌, [], OnOk, if◌then◌else◌};
ghost use Rattle.lq_base.specs.declared.run.OnFail.TheVariants.{Halt};

use lq_base::{Items, NoMemory, OnFail};
use std::alloc::Global;

/// The conditions of all files, each of which has to hold.
#[derive(Drop)]
pub struct Joined<C> {
    pub conds: Items<C>,
    /// What the root says.
    pub on_fail: OnFail,
    pub on_error: OnFail,
}

impl<C: Drop> Joined<C> {
    /// No conditions.
    pub fn new(alloc: Global) -> Joined<C>
        ensures { result ≡ record { conds = []; on_fail = Halt; on_error = Halt } }
    {
        Joined {
            conds: Items::new(alloc),
            on_fail: OnFail::Halt,
            on_error: OnFail::Halt,
        }
    }

    /// Adds the conditions of a file. Only the root says how they are reacted to.
    pub fn add_reaction(
        &mut self,
        is_root: bool,
        cond: C,
        on_fail: OnFail,
        on_error: OnFail,
    ) -> Result<(), NoMemory>
        ensures conds { OnOk result (self.new.conds ≡ self.old.conds ++ cond ∷ []) }
        ensures on_fail { OnOk result
            (self.new.on_fail ≡ (if is_root then on_fail else self.old.on_fail)) }
        ensures on_error { OnOk result
            (self.new.on_error ≡ (if is_root then on_error else self.old.on_error)) }
    {
        self.conds.push(cond)?;
        if is_root {
            self.on_fail = on_fail;
            self.on_error = on_error;
        }
        Ok(())
    }
}
