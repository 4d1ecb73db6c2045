use lq_base::{Duplicate, Items, Name, NoMemory};
use std::alloc::Global;

/// An index of a table.
pub struct Index {
    pub name: Name,
    pub columns: Items<Name>,
    pub unique: bool,
}

// Written out, so that each place that lets one go is one call.
impl Drop for Index {
    fn drop(self) {
        let Index {
            name,
            columns,
            unique: _,
        } = self;
        drop(name);
        drop(columns);
    }
}

impl Duplicate for Index {
    fn duplicate(&self, alloc: Global) -> Result<Index, NoMemory> {
        Ok(Index {
            name: self.name.duplicate(alloc)?,
            columns: self.columns.duplicate(alloc)?,
            unique: self.unique,
        })
    }
}
