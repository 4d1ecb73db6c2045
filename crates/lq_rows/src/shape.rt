use lq_base::{Duplicate, Items, NoMemory, both};
use lq_model::{Column, ForeignKey, Index, Key, Unique};
use std::alloc::Global;

/// What a table is but for its rows and its next number.
pub struct Shape {
    pub columns: Items<Column>,
    pub key: Option<Key>,
    pub uniques: Items<Unique>,
    pub foreign: Items<ForeignKey>,
    pub indexes: Items<Index>,
}

// Written out, so that each place that lets one go is one call.
impl Drop for Shape {
    fn drop(self) {
        let Shape {
            columns,
            key,
            uniques,
            foreign,
            indexes,
        } = self;
        drop(columns);
        drop(key);
        drop(uniques);
        drop(foreign);
        drop(indexes);
    }
}

impl Duplicate for Shape {
    fn duplicate(&self, alloc: Global) -> Result<Shape, NoMemory> {
        let (((columns, key), uniques), (foreign, indexes)) = both(
            both(
                both(self.columns.duplicate(alloc), self.key.duplicate(alloc)),
                self.uniques.duplicate(alloc),
            ),
            both(self.foreign.duplicate(alloc), self.indexes.duplicate(alloc)),
        )?;
        Ok(Shape {
            columns,
            key,
            uniques,
            foreign,
            indexes,
        })
    }
}
