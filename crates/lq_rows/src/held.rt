ghost use Rattle.std.specs.Prelude.{◌≡◌, ◌≤◌, ◌++◌, ◌∷◌, ◌<◌, [], length, map, IfOk, IfSome, OnOk, OnErr, slice_get, slice_set};
ghost use Rattle.std.specs.Option.{option_copied};
ghost use Rattle.std.specs.List.{list_any, remove};
ghost use Rattle.lq_model.specs.Catalogue.{has_null_in, by_name, is_null};
ghost use Rattle.lq_chain.specs.History.{changed, marked, undone_to, forgotten};
ghost use Rattle.lq_chain.specs.Marks.{kept_rows, replaced};
ghost use Rattle.lq_rows.specs.Stored.{ArePlaces, IsFront, has_values, reshaped, rows_of, shape_of, stored, table_as, with_rows};
ghost use Rattle.lq_model.specs.Plan.{is_twin};

use crate::pick::{has_column, is_null_at};
use crate::print;
use crate::seen::{asked, keep_up};
use crate::shape::Shape;
use crate::twin::{index_twin, key_twin, unique_twin};
use crate::values::Values;
use lq_base::{Items, Name, NoMemory, Value};
use lq_chain::Chain;
use lq_model::{Column, ForeignKey, Index, Key, Unique};
use lq_undo::Numbered;
use std::alloc::Global;
use std::collections::BTreeSet;
use std::marker::Model;
use std::mem;

/// A row's values, one for each column.
pub type Row = Items<Value>;

/// The values that the rows of a table have in some columns.
#[derive(Drop)]
pub struct Seen {
    pub(crate) columns: Items<Name>,
    pub(crate) values: BTreeSet<Values>,
}

#[derive(Drop)]
pub struct Body {
    shape: Shape,
    /// The rows, with what the next of them gets in a numbered column where it states no number.
    numbered: Numbered<Chain<Row>>,
    /// What is known of the rows for looking up; it is dropped where rows go.
    seen: Vec<Seen>,
    /// The fingerprints of the rows, by which those that begin with a text are found.
    prints: Option<Items<u32>>,
}

/// A table, with its rows before each change since the last `forget`. It is small, and can be moved
/// without its rows.
pub struct Held {
    body: Box<Body>,
}

// Written out, so that each place that lets one go is one call.
impl Drop for Held {
    fn drop(self) {
        let Held { body } = self;
        drop(body);
    }
}

impl Model for Held {
    ghost use Rattle.lq_rows.specs.Stored.{Stored, stored};

    ghost Value = { Stored };

    ghost use Rattle.lq_rows.specs.Stored.{table_as, ArePrints, AllShow};

    ghost view = { λ t. stored (table_as t.body.value.shape t.body.value.numbered.next t.body.value.numbered.rows.now) t.body.value.numbered.rows.past };

    ghost invariant = { λ t. AllShow t.body.value.shape.columns t.body.value.numbered.rows.now t.body.value.seen.items × ArePrints t.body.value.numbered.rows.now t.body.value.prints };
}

impl Held {
    /// A table without rows. Its numbers begin at 1.
    pub fn new(alloc: Global, shape: Shape) -> Result<Held, NoMemory>
        ensures { IfOk result (λ held. held ≡ stored (table_as shape 1 []) []) }
    {
        let body = Body {
            shape,
            numbered: Numbered {
                rows: Chain::new(alloc),
                next: 1,
            },
            seen: Vec::new(alloc),
            prints: Some(Items::new(alloc)),
        };
        Ok(Held {
            body: Box::new(alloc, body)?,
        })
    }

    /// What the table is but for its rows and its next number.
    pub fn shape(&self) -> &Shape
        ensures { result.now ≡ shape_of self.now.now }
    {
        &self.body.shape
    }

    pub fn columns(&self) -> &[Column]
        ensures { result.now ≡ self.now.now.columns }
    {
        self.body.shape.columns.as_slice()
    }

    pub fn key(&self) -> Option<&Key>
        ensures { option_copied result ≡ self.now.now.key }
    {
        self.body.shape.key.as_ref()
    }

    pub fn uniques(&self) -> &[Unique]
        ensures { result.now ≡ self.now.now.uniques }
    {
        self.body.shape.uniques.as_slice()
    }

    pub fn foreign_keys(&self) -> &[ForeignKey]
        ensures { result.now ≡ self.now.now.foreign }
    {
        self.body.shape.foreign.as_slice()
    }

    pub fn indexes(&self) -> &[Index]
        ensures { result.now ≡ self.now.now.indexes }
    {
        self.body.shape.indexes.as_slice()
    }

    /// What the next row gets in a numbered column.
    pub fn next(&self) -> u64
        ensures { result ≡ self.now.now.next }
    {
        self.body.numbered.next
    }

    /// The rows, with what undoing their changes needs.
    pub fn rows(&self) -> &Chain<Row>
        ensures { result.now ≡ rows_of self.now }
    {
        &self.body.numbered.rows
    }

    /// The row at the place.
    pub fn row(&self, at: usize) -> Option<&Row>
        ensures { option_copied result ≡ slice_get self.now.now.rows at }
    {
        self.body.numbered.rows.get(at)
    }

    /// The number of its rows.
    pub fn len(&self) -> usize
        ensures { result ≡ length self.now.now.rows }
    {
        self.body.numbered.rows.len()
    }

    /// Whether a row has a null in the column of the name.
    pub fn has_null(&self, column: &Name) -> bool
        ensures { result ≡ has_null_in column.now self.now.now }
    {
        has_column(self.columns(), column) && null_in(self.columns(), self.rows(), column)
    }

    /// The number of changes of its rows that are not undone.
    pub fn mark(&self) -> u64
        ensures { result ≡ marked (rows_of self.now) }
    {
        self.body.numbered.rows.mark()
    }

    /// Whether a row has these values in these columns. What gets known for it stays known.
    pub fn has_row(
        &mut self,
        alloc: Global,
        names: &[Name],
        values: &Values,
    ) -> Result<bool, NoMemory>
        ensures found { IfOk result (λ found.
            found ≡ has_values self.old.now.columns names.now self.old.now.rows values.now) }
        ensures same { self.new ≡ self.old }
    {
        let body = &mut *self.body;
        asked(
            alloc,
            &mut body.seen,
            body.shape.columns.as_slice(),
            &body.numbered.rows,
            names,
            values,
        )
    }

    /// Places of rows, rising, among which each row stands that begins with the text. What gets known
    /// for it stays known.
    pub fn places(&mut self, alloc: Global, first: &str) -> Result<Vec<usize>, NoMemory>
        ensures places { IfOk result
            (λ places. ArePlaces first.now self.old.now.rows places.items) }
        ensures same { self.new ≡ self.old }
    {
        let body = &mut *self.body;
        print::places(alloc, &mut body.prints, &body.numbered.rows, first)
    }

    /// The front of the rows for the text, where it is known and they are few.
    pub fn front(&self, alloc: Global, first: &str) -> Result<Option<Vec<&Row>>, NoMemory>
        ensures { IfOk result (λ front. IfSome front (λ rows.
            IsFront first.now self.now.now.rows (map (λ row. row.now) rows.items))) }
    {
        let body = &*self.body;
        print::front(alloc, &body.prints, &body.numbered.rows, first)
    }

    /// Whether a row is equal to this one in a key, a unique constraint or a unique index.
    pub fn is_twin(&mut self, alloc: Global, row: &[Value]) -> Result<bool, NoMemory>
        ensures found { IfOk result (λ found. found ≡ is_twin self.old.now row.now) }
        ensures same { self.new ≡ self.old }
    {
        let body = &mut *self.body;
        let columns = body.shape.columns.as_slice();
        if key_twin(
            alloc,
            &mut body.seen,
            columns,
            &body.numbered.rows,
            &body.shape.key,
            row,
        )? {
            return Ok(true);
        }
        if unique_twin(
            alloc,
            &mut body.seen,
            columns,
            &body.numbered.rows,
            body.shape.uniques.as_slice(),
            row,
        )? {
            return Ok(true);
        }
        index_twin(
            alloc,
            &mut body.seen,
            columns,
            &body.numbered.rows,
            body.shape.indexes.as_slice(),
            row,
        )
    }

    /// Adds a row at the end, or changes nothing.
    pub fn append(&mut self, alloc: Global, row: Row, next: u64) -> Result<(), NoMemory>
        ensures ok { OnOk result
            (self.new
            ≡ with_rows (changed (rows_of self.old) (self.old.now.rows ++ row ∷ [])) next
            self.old) }
        ensures err { OnErr result (self.new ≡ self.old) }
    {
        let body = &mut *self.body;
        keep_up(
            alloc,
            &mut body.seen,
            body.shape.columns.as_slice(),
            row.as_slice(),
        );
        print::add(&mut body.prints, row.as_slice());
        if body.numbered.rows.push_back(row).is_err() {
            body.seen.clear();
            body.prints = None;
            return Err(NoMemory);
        }
        body.numbered.next = next;
        Ok(())
    }

    /// Puts other rows in place of those where there is one, or changes nothing.
    pub fn replace_some(&mut self, alloc: Global, by: Vec<Option<Row>>) -> Result<(), NoMemory>
        requires { length by.items ≡ length self.old.now.rows }
        ensures ok { OnOk result
            (self.new
            ≡ with_rows (changed (rows_of self.old) (replaced by.items self.old.now.rows))
            self.old.now.next self.old) }
        ensures err { OnErr result (self.new ≡ self.old) }
    {
        let body = &mut *self.body;
        body.seen.clear();
        body.numbered.rows.replace_some(alloc, by)?;
        print::renew(alloc, &mut body.prints, &body.numbered.rows);
        Ok(())
    }

    /// Keeps the rows whose mark stands and takes the others out, or changes nothing.
    pub fn keep(&mut self, alloc: Global, marks: Vec<bool>) -> Result<(), NoMemory>
        requires { length marks.items ≡ length self.old.now.rows }
        ensures ok { OnOk result
            (self.new
            ≡ with_rows (changed (rows_of self.old) (kept_rows marks.items self.old.now.rows))
            self.old.now.next self.old) }
        ensures err { OnErr result (self.new ≡ self.old) }
    {
        let body = &mut *self.body;
        body.seen.clear();
        body.numbered.rows.keep(alloc, marks)?;
        print::renew(alloc, &mut body.prints, &body.numbered.rows);
        Ok(())
    }

    /// Takes the row at the place out, or changes nothing.
    pub fn take_out(&mut self, at: usize) -> Result<(), NoMemory>
        requires { at < length self.old.now.rows }
        ensures ok { OnOk result
            (self.new
            ≡ with_rows (changed (rows_of self.old) (remove self.old.now.rows at))
            self.old.now.next self.old) }
        ensures err { OnErr result (self.new ≡ self.old) }
    {
        let body = &mut *self.body;
        body.seen.clear();
        body.numbered.rows.unlink(at)?;
        print::remove(&mut body.prints, at);
        Ok(())
    }

    /// Puts another row in place of the one at the place, or changes nothing.
    pub fn replace(&mut self, at: usize, row: Row) -> Result<(), NoMemory>
        requires { at < length self.old.now.rows }
        ensures ok { OnOk result
            (self.new
            ≡ with_rows (changed (rows_of self.old) (slice_set self.old.now.rows at row))
            self.old.now.next self.old) }
        ensures err { OnErr result (self.new ≡ self.old) }
    {
        let body = &mut *self.body;
        body.seen.clear();
        print::set(&mut body.prints, at, row.as_slice());
        if body.numbered.rows.replace(at, row).is_err() {
            body.prints = None;
            return Err(NoMemory);
        }
        Ok(())
    }

    /// Gives the rows and the next number as they were.
    pub fn go_back(&mut self, mark: u64, next: u64)
        requires { mark ≤ marked (rows_of self.old) }
        ensures { self.new ≡ with_rows (undone_to (rows_of self.old) mark) next self.old }
    {
        let body = &mut *self.body;
        body.seen.clear();
        body.prints = None;
        body.numbered.go_back(mark, next);
    }

    /// Gives the table another shape, and hands back the one that it had.
    pub fn reshape(&mut self, shape: Shape) -> Shape
        ensures new { self.new ≡ reshaped shape self.old }
        ensures old { result ≡ shape_of self.old.now }
    {
        let body = &mut *self.body;
        body.seen.clear();
        mem::replace(&mut body.shape, shape)
    }

    /// Keeps the rows as they are: their changes cannot be undone.
    pub fn forget(&mut self)
        ensures { self.new ≡ with_rows (forgotten (rows_of self.old)) self.old.now.next self.old }
    {
        self.body.numbered.rows.forget();
    }
}

fn null_in(columns: &[Column], rows: &Chain<Row>, column: &Name) -> bool
    ensures { result ≡ list_any (λ row. is_null (by_name columns.now row column.now))
        rows.now.now }
{
    for row in rows.iter() {
        if is_null_at(columns, row.as_slice(), column) {
            return true;
        }
    }
    false
}
