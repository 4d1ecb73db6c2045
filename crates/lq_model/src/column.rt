use lq_base::{Duplicate, Kind, Literal, Name, NoMemory, Value};
use std::alloc::Global;

/// A column of a table that is there.
pub struct Column {
    pub name: Name,
    pub kind: Kind,
    pub nullable: bool,
    pub default: Option<Value>,
    /// Whether a row that states no value takes the table's next number.
    pub numbered: bool,
}

// Written out, so that each place that lets one go is one call.
impl Drop for Column {
    fn drop(self) {
        let Column {
            name,
            kind: _,
            nullable: _,
            default,
            numbered: _,
        } = self;
        drop(name);
        drop(default);
    }
}

/// A column as a statement describes it.
pub struct ColumnDef {
    pub name: Name,
    pub kind: Kind,
    pub nullable: bool,
    pub default: Option<Literal>,
    pub numbered: bool,
}

// Written out, so that each place that lets one go is one call.
impl Drop for ColumnDef {
    fn drop(self) {
        let ColumnDef {
            name,
            kind: _,
            nullable: _,
            default,
            numbered: _,
        } = self;
        drop(name);
        drop(default);
    }
}

impl Duplicate for Column {
    fn duplicate(&self, alloc: Global) -> Result<Column, NoMemory> {
        Ok(Column {
            name: self.name.duplicate(alloc)?,
            kind: self.kind,
            nullable: self.nullable,
            default: self.default.duplicate(alloc)?,
            numbered: self.numbered,
        })
    }
}

impl Duplicate for ColumnDef {
    fn duplicate(&self, alloc: Global) -> Result<ColumnDef, NoMemory> {
        Ok(ColumnDef {
            name: self.name.duplicate(alloc)?,
            kind: self.kind,
            nullable: self.nullable,
            default: self.default.duplicate(alloc)?,
            numbered: self.numbered,
        })
    }
}
