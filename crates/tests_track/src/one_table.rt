ghost use Rattle.std.specs.List.{find, list_any};
ghost use Rattle.std.specs.Option.{option_copied};
ghost use Rattle.std.specs.Prelude.{◌≡◌, IfOk, None, length, map, true};
ghost use Rattle.lq_base.specs.Name.{is_named};
ghost use Rattle.lq_model.specs.Catalogue.{is_in, by_name, is_null};
ghost use Rattle.lq_model.specs.declared.query.Wanted.TheVariants as wanted;

use lq_base::{Duplicate, Items, Name, NoMemory, Value};
use lq_model::{
    Answered, AskFault, By, Column, ForeignKey, Index, Key, Look, Query, Unique, Wanted,
};
use std::alloc::Global;

/// A look at a catalogue of one table, without constraints but a key. Of queries it answers the one
/// for all of the table, asked by the program, and has no memory for others.
pub struct OneTable {
    pub name: Name,
    pub columns: Items<Column>,
    pub key: Option<Key>,
    pub rows: Items<Items<Value>>,
}

// Written out, so that each place that lets one go is one call.
impl Drop for OneTable {
    fn drop(self) {
        let OneTable {
            name,
            columns,
            key,
            rows,
        } = self;
        drop(name);
        drop(columns);
        drop(key);
        drop(rows);
    }
}

impl OneTable {
    pub fn with_rows(mut self, rows: Items<Items<Value>>) -> OneTable {
        self.rows = rows;
        self
    }

    pub fn with_key(mut self, key: Key) -> OneTable {
        self.key = Some(key);
        self
    }

    fn whole(&self, alloc: Global) -> Result<Answered, NoMemory>
        ensures { IfOk result (λ answered. answered
            ≡ record { columns = length self.now.columns; rows = self.now.rows }) }
    {
        Ok(Answered {
            columns: self.columns.len() as u64,
            rows: self.rows.duplicate(alloc)?,
        })
    }
}

impl Look for OneTable {
    ghost use Rattle.std.specs.Prelude.{[], ◌∷◌};

    ghost catalogue = { λ t. record {
      tables = (t.name, record { columns = t.columns; key = t.key; uniques = []; foreign = []; indexes = []; next = 1; rows = t.rows }) ∷ [];
      views = [];
      sequences = [];
    } };

    fn is_table(&self, table: &Name) -> bool {
        *table == self.name
    }

    fn is_view(&self, _view: &Name) -> bool {
        false
    }

    fn is_sequence(&self, _sequence: &Name) -> bool {
        false
    }

    fn column(&self, table: &Name, column: &Name) -> Option<&Column> {
        if *table == self.name {
            find_column(self.columns.as_slice(), column)
        } else {
            None
        }
    }

    fn key(&self, table: &Name) -> Option<&Key> {
        if *table == self.name {
            self.key.as_ref()
        } else {
            None
        }
    }

    fn unique(&self, _table: &Name, _name: &Name) -> Option<&Unique> {
        None
    }

    fn foreign_key(&self, _table: &Name, _name: &Name) -> Option<&ForeignKey> {
        None
    }

    fn index(&self, _table: &Name, _name: &Name) -> Option<&Index> {
        None
    }

    fn columns(&self, table: &Name) -> Option<&[Column]> {
        if *table == self.name {
            Some(self.columns.as_slice())
        } else {
            None
        }
    }

    fn uniques(&self, table: &Name) -> Option<&[Unique]> {
        if *table == self.name { Some(&[]) } else { None }
    }

    fn foreign_keys(&self, table: &Name) -> Option<&[ForeignKey]> {
        if *table == self.name { Some(&[]) } else { None }
    }

    fn indexes(&self, table: &Name) -> Option<&[Index]> {
        if *table == self.name { Some(&[]) } else { None }
    }

    fn has_null(&self, table: &Name, column: &Name) -> bool {
        *table == self.name
            && is_among(self.columns.as_slice(), column)
            && holds_null(self.columns.as_slice(), self.rows.as_slice(), column)
    }

    fn rows(&self, table: &Name) -> Option<u64> {
        if *table == self.name {
            Some(self.rows.len() as u64)
        } else {
            None
        }
    }

    fn ask(&self, alloc: Global, by: By, query: &Query) -> Result<Answered, AskFault> {
        if query.table != self.name || !is_for_all(query) {
            return Err(AskFault::OutOfMemory);
        }
        match by {
            By::User => Err(AskFault::OutOfMemory),
            By::Program => match self.whole(alloc) {
                Ok(answered) => Ok(answered),
                Err(NoMemory) => Err(AskFault::OutOfMemory),
            },
        }
    }
}

fn is_for_all(query: &Query) -> bool
    ensures { result ≡ true → (query.now.wanted ≡ wanted.All) × (query.now.test ≡ None) }
{
    match (&query.wanted, &query.test) {
        (Wanted::All, None) => true,
        _ => false,
    }
}

fn find_column<'a>(columns: &'a [Column], name: &Name) -> Option<&'a Column>
    ensures { option_copied result ≡ find (λ column. is_named name.now column.name) columns.now }
{
    columns.iter().find(|column| *name == column.name)
}

fn is_among(columns: &[Column], name: &Name) -> bool
    ensures { result ≡ is_in name.now (map (λ column. column.name) columns.now) }
{
    is_any_named(columns, name)
}

fn is_any_named(columns: &[Column], name: &Name) -> bool
    ensures { result ≡ list_any (λ column. is_named name.now column.name) columns.now }
{
    columns.iter().any(|column| *name == column.name)
}

fn holds_null(columns: &[Column], rows: &[Items<Value>], name: &Name) -> bool
    ensures { result ≡ list_any (λ row. is_null (by_name columns.now row name.now)) rows.now }
{
    rows.iter()
        .any(|row| is_null_at(columns, row.as_slice(), name))
}

fn is_null_at(columns: &[Column], values: &[Value], name: &Name) -> bool
    ensures { result ≡ is_null (by_name columns.now values.now name.now) }
{
    let mut columns = columns;
    let mut values = values;
    while let (Some((column, others)), Some((value, more))) = (
        columns.split_first(),
        values.split_first(),
    ) {
        if *name == column.name {
            return matches!(value, Value::Null);
        }
        columns = others;
        values = more;
    }
    true
}
