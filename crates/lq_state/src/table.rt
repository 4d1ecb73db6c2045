ghost use Rattle.std.specs.Prelude.{◌≡◌, ◌++◌, Some, None, MatchOption, IfOk, OnOk, true};
ghost use Rattle.lq_codec.specs.State.{OnTrue};
ghost use Rattle.lq_codec.specs.Tables.{as_table, columns_codec, has_some, head_codec, rows_of_width};

use crate::rows::{append_rows, rows_in};
use lq_base::{Items, NoMemory, Value};
use lq_codec::{append_number, number};
use lq_coded::{Coded, append_list};
use lq_model::{Column, ForeignKey, Index, Key, Unique};
use std::alloc::Global;
use std::marker::Model;

/// A table with its rows.
pub struct Table {
    pub columns: Items<Column>,
    pub key: Option<Key>,
    pub uniques: Items<Unique>,
    pub foreign: Items<ForeignKey>,
    pub indexes: Items<Index>,
    /// What the next row gets in a numbered column.
    pub next: u64,
    pub rows: Items<Items<Value>>,
}

// Written out, so that each place that lets one go is one call.
impl Drop for Table {
    fn drop(self) {
        let Table {
            columns,
            key,
            uniques,
            foreign,
            indexes,
            next: _,
            rows,
        } = self;
        drop(columns);
        drop(key);
        drop(uniques);
        drop(foreign);
        drop(indexes);
        drop(rows);
    }
}

impl Model for Table {
    ghost use Rattle.lq_model.specs.Catalogue as catalogue;

    ghost Value = { catalogue.Table };

    ghost view = { λ t. record {
      columns = t.columns;
      key = t.key;
      uniques = t.uniques;
      foreign = t.foreign;
      indexes = t.indexes;
      next = t.next;
      rows = t.rows;
    } };
}

impl Table {
    /// What it is but for its next number and its rows, then these two.
    pub fn into_parts(self) -> (Head, u64, Items<Items<Value>>)
        ensures { result
            ≡ (
              (self.columns, self.key, self.uniques, self.foreign, self.indexes),
              self.next,
              self.rows,
            ) }
    {
        let Table {
            columns,
            key,
            uniques,
            foreign,
            indexes,
            next,
            rows,
        } = self;
        ((columns, key, uniques, foreign, indexes), next, rows)
    }
}

/// The columns, the key, the unique constraints, the foreign keys and the indexes of a table.
pub type Head = (
    Items<Column>,
    Option<Key>,
    Items<Unique>,
    Items<ForeignKey>,
    Items<Index>,
);

// What stands behind the columns, up to the rows.
type Tail = (
    Option<Key>,
    (Items<Unique>, (Items<ForeignKey>, (Items<Index>, u64))),
);

// At least one column.
fn columns_in(alloc: Global, bytes: &[u8]) -> Result<Option<(Items<Column>, &[u8])>, NoMemory>
    ensures { IfOk result (λ found. MatchOption found (columns_codec.read bytes.now ≡ None)
        (λ next. columns_codec.read bytes.now ≡ Some (next.0, next.1.now))) }
{
    let Some((columns, rest)) = Items::<Column>::read(alloc, bytes)? else {
        return Ok(None);
    };
    if columns.is_empty() {
        return Ok(None);
    }
    Ok(Some((columns, rest)))
}

fn head_in(alloc: Global, bytes: &[u8]) -> Result<Option<((Items<Column>, Tail), &[u8])>, NoMemory>
    ensures { IfOk result (λ found. MatchOption found (head_codec.read bytes.now ≡ None)
        (λ next. head_codec.read bytes.now ≡ Some (next.0, next.1.now))) }
{
    let Some((columns, rest)) = columns_in(alloc, bytes)? else {
        return Ok(None);
    };
    match Tail::read(alloc, rest)? {
        Some((tail, rest)) => Ok(Some(((columns, tail), rest))),
        None => Ok(None),
    }
}

/// Appends the bytes of a table but for its rows.
pub fn append_head(
    columns: &[Column],
    key: &Option<Key>,
    uniques: &[Unique],
    foreign: &[ForeignKey],
    indexes: &[Index],
    next: u64,
    to: &mut Vec<u8>,
) -> Result<(), NoMemory>
    ensures bytes { OnOk result
        (to.new.items
        ≡ to.old.items
        ++ head_codec.write
        (columns.now, (key.now, (uniques.now, (foreign.now, (indexes.now, next)))))) }
    ensures fits { OnOk result
        (OnTrue (has_some columns.now)
        (head_codec.ok (columns.now, (key.now, (uniques.now, (foreign.now, (indexes.now, next)))))
        ≡ true)) }
{
    append_list(columns, to)?;
    key.write(to)?;
    append_list(uniques, to)?;
    append_list(foreign, to)?;
    append_list(indexes, to)?;
    next.write(to)?;
    Ok(())
}

// At most 100,000 rows, which no database has more of.
fn counted_rows_in(
    alloc: Global,
    bytes: &[u8],
    width: usize,
) -> Result<Option<(Items<Items<Value>>, &[u8])>, NoMemory>
    ensures { IfOk result (λ found. MatchOption found
        ((rows_of_width width).read bytes.now ≡ None)
        (λ next. (rows_of_width width).read bytes.now ≡ Some (next.0, next.1.now))) }
{
    let Some((n, rest)) = number(bytes) else {
        return Ok(None);
    };
    if n < 0 || n > 100_000 {
        return Ok(None);
    }
    match rows_in(alloc, rest, n as u64, width)? {
        Some((rows, rest)) => Ok(Some((rows, rest))),
        None => Ok(None),
    }
}

// The table of what stands before its rows, and of its rows.
fn table_of(head: (Items<Column>, Tail), rows: Items<Items<Value>>) -> Table
    ensures { result ≡ as_table (head, rows) }
{
    let (columns, (key, (uniques, (foreign, (indexes, next))))) = head;
    Table {
        columns,
        key,
        uniques,
        foreign,
        indexes,
        next,
        rows,
    }
}

#[tactic(auto, unfolding(lq_codec::specs::Tables::table_codec), using(crate::proofs::ShapedLemmas::table_fits))]
impl Coded for Table {
    ghost use Rattle.lq_codec.specs.Tables.{table_codec};
    ghost use Rattle.lq_state.specs.Shaped.{is_shaped};

    ghost codec = { table_codec };

    ghost within = { is_shaped };

    fn read(alloc: Global, bytes: &[u8]) -> Result<Option<(Table, &[u8])>, NoMemory> {
        let Some((head, rest)) = head_in(alloc, bytes)? else {
            return Ok(None);
        };
        match counted_rows_in(alloc, rest, head.0.len())? {
            Some((rows, rest)) => Ok(Some((table_of(head, rows), rest))),
            None => Ok(None),
        }
    }

    fn write(&self, to: &mut Vec<u8>) -> Result<(), NoMemory> {
        append_head(
            self.columns.as_slice(),
            &self.key,
            self.uniques.as_slice(),
            self.foreign.as_slice(),
            self.indexes.as_slice(),
            self.next,
            to,
        )?;
        append_number(self.rows.len() as i128, to)?;
        append_rows(self.columns.as_slice(), self.rows.as_slice(), to)?;
        Ok(())
    }
}
