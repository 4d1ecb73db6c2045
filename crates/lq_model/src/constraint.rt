ghost use Rattle.std.specs.Prelude.{◌≡◌};

use lq_base::{Duplicate, Items, Name, NoMemory};
use std::alloc::Global;

/// A primary key.
pub struct Key {
    pub name: Name,
    pub columns: Items<Name>,
}

// Written out, so that each place that lets one go is one call.
impl Drop for Key {
    fn drop(self) {
        let Key { name, columns } = self;
        drop(name);
        drop(columns);
    }
}

/// A unique constraint.
pub struct Unique {
    pub name: Name,
    pub columns: Items<Name>,
}

// Written out, so that each place that lets one go is one call.
impl Drop for Unique {
    fn drop(self) {
        let Unique { name, columns } = self;
        drop(name);
        drop(columns);
    }
}

/// A foreign key: each row of its table has a row of the target table, unless one of its columns is null.
pub struct ForeignKey {
    pub name: Name,
    pub columns: Items<Name>,
    pub table: Name,
    pub targets: Items<Name>,
    /// Whether deleting the target's row deletes the row too.
    pub cascade: bool,
}

// Written out, so that each place that lets one go is one call.
impl Drop for ForeignKey {
    fn drop(self) {
        let ForeignKey {
            name,
            columns,
            table,
            targets,
            cascade: _,
        } = self;
        drop(name);
        drop(columns);
        drop(table);
        drop(targets);
    }
}

impl Unique {
    /// Its name alone.
    pub fn into_name(self) -> Name
        ensures { result ≡ self.name }
    {
        let Unique { name, columns } = self;
        drop(columns);
        name
    }
}

impl ForeignKey {
    /// Its name alone.
    pub fn into_name(self) -> Name
        ensures { result ≡ self.name }
    {
        let ForeignKey {
            name,
            columns,
            table,
            targets,
            cascade: _,
        } = self;
        drop(columns);
        drop(table);
        drop(targets);
        name
    }
}

impl Duplicate for Key {
    fn duplicate(&self, alloc: Global) -> Result<Key, NoMemory> {
        Ok(Key {
            name: self.name.duplicate(alloc)?,
            columns: self.columns.duplicate(alloc)?,
        })
    }
}

impl Duplicate for Unique {
    fn duplicate(&self, alloc: Global) -> Result<Unique, NoMemory> {
        Ok(Unique {
            name: self.name.duplicate(alloc)?,
            columns: self.columns.duplicate(alloc)?,
        })
    }
}

impl Duplicate for ForeignKey {
    fn duplicate(&self, alloc: Global) -> Result<ForeignKey, NoMemory> {
        Ok(ForeignKey {
            name: self.name.duplicate(alloc)?,
            columns: self.columns.duplicate(alloc)?,
            table: self.table.duplicate(alloc)?,
            targets: self.targets.duplicate(alloc)?,
            cascade: self.cascade,
        })
    }
}
