use crate::test::Test;
use lq_base::{Duplicate, Items, Name, NoMemory, Value};
use std::alloc::Global;

/// What a query selects of each row, or of all rows.
pub enum Wanted {
    All,
    Count,
    Columns(Items<Name>),
}

// Written out, so that each place that lets one go is one call.
impl Drop for Wanted {
    fn drop(self) {
        match self {
            Wanted::All => (),
            Wanted::Count => (),
            Wanted::Columns(it) => drop(it),
        }
    }
}

/// A query of one table or view.
pub struct Query {
    pub wanted: Wanted,
    pub table: Name,
    pub test: Option<Test>,
}

// Written out, so that each place that lets one go is one call.
impl Drop for Query {
    fn drop(self) {
        let Query {
            wanted,
            table,
            test,
        } = self;
        drop(wanted);
        drop(table);
        drop(test);
    }
}

/// The answer to a query.
#[derive(Drop)]
pub struct Answered {
    /// How many values each row has.
    pub columns: u64,
    pub rows: Items<Items<Value>>,
}

impl Duplicate for Wanted {
    fn duplicate(&self, alloc: Global) -> Result<Wanted, NoMemory> {
        Ok(match self {
            Wanted::All => Wanted::All,
            Wanted::Count => Wanted::Count,
            Wanted::Columns(columns) => Wanted::Columns(columns.duplicate(alloc)?),
        })
    }
}

impl Duplicate for Query {
    fn duplicate(&self, alloc: Global) -> Result<Query, NoMemory> {
        Ok(Query {
            wanted: self.wanted.duplicate(alloc)?,
            table: self.table.duplicate(alloc)?,
            test: self.test.duplicate(alloc)?,
        })
    }
}
