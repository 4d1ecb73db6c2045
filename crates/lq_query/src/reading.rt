ghost use Rattle.std.specs.List.{count_by, filter_map};
ghost use Rattle.lq_base.specs.declared.value.Value.TheVariants.{Int};
ghost use Rattle.std.specs.Prelude.{◌≡◌, ◌+◌, ◌∷◌, [], IfOk, map, pos};
ghost use Rattle.lq_model.specs.Views.{answer_from};
ghost use Rattle.lq_model.specs.Catalogue.{picked};
ghost use Rattle.lq_query.specs.Given.{chosen, given, is_counted, taken};
ghost use Rattle.lq_query.specs.Source.{shown_rows};

use crate::pick::picked;
use crate::source::Shown;
use crate::truth::is_taken;
use lq_base::{Duplicate, Items, NoMemory, Value};
use lq_chain::Iter;
use lq_model::{Answered, Column, Query, Wanted};
use std::alloc::Global;

/// A query of a table's rows, or of what a view shows of them.
#[derive(Clone, Copy)]
pub struct Reading<'a> {
    pub query: &'a Query,
    /// The columns of the table.
    pub table: &'a [Column],
    pub view: Option<Shown<'a>>,
    /// The columns that are shown.
    pub columns: &'a [Column],
}

impl Reading<'_> {
    // The values that the query lists of a row that is shown.
    fn chosen(&self, alloc: Global, row: &Items<Value>) -> Result<Items<Value>, NoMemory>
        ensures { IfOk result
            (λ values. values ≡ chosen self.now.query.now.wanted self.now.columns.now row.now) }
    {
        match &self.query.wanted {
            Wanted::Columns(names) => {
                picked(alloc, self.columns, names.as_slice(), row.as_slice())
            }
            Wanted::All => row.duplicate(alloc),
            Wanted::Count => row.duplicate(alloc),
        }
    }

    // The same, where the query takes the row.
    fn taken(&self, alloc: Global, row: &Items<Value>) -> Result<Option<Items<Value>>, NoMemory>
        ensures { IfOk result
            (λ values. values ≡ taken self.now.query.now self.now.columns.now row.now) }
    {
        if !is_taken(&self.query.test, self.columns, row.as_slice()) {
            return Ok(None);
        }
        Ok(Some(self.chosen(alloc, row)?))
    }

    // What the query gives of a row of the table, if it gives something.
    fn given(&self, alloc: Global, row: &Items<Value>) -> Result<Option<Items<Value>>, NoMemory>
        ensures { IfOk result (λ values.
            values
            ≡ given self.now.view self.now.table.now self.now.query.now self.now.columns.now
            row.now) }
    {
        let Some(view) = self.view else {
            return self.taken(alloc, row);
        };
        if !is_taken(view.test, self.table, row.as_slice()) {
            return Ok(None);
        }
        let shown = picked(alloc, self.table, view.names, row.as_slice())?;
        self.taken(alloc, &shown)
    }

    // Whether the query counts a row of the table.
    fn is_counted(&self, alloc: Global, row: &Items<Value>) -> Result<bool, NoMemory>
        ensures { IfOk result (λ counted.
            counted
            ≡ is_counted self.now.view self.now.table.now self.now.query.now self.now.columns.now
            row.now) }
    {
        let Some(view) = self.view else {
            return Ok(is_taken(&self.query.test, self.columns, row.as_slice()));
        };
        if !is_taken(view.test, self.table, row.as_slice()) {
            return Ok(false);
        }
        let shown = picked(alloc, self.table, view.names, row.as_slice())?;
        Ok(is_taken(&self.query.test, self.columns, shown.as_slice()))
    }

    fn rows(
        &self,
        alloc: Global,
        rows: Iter<'_, Items<Value>>,
    ) -> Result<Items<Items<Value>>, NoMemory>
        ensures { IfOk result (λ found.
            found
            ≡ filter_map
            (given self.now.view self.now.table.now self.now.query.now self.now.columns.now)
            rows.entry) }
    {
        let mut found = Items::new(alloc);
        for row in rows {
            if let Some(values) = self.given(alloc, row)? {
                found.push(values)?;
            }
        }
        Ok(found)
    }

    fn count(&self, alloc: Global, rows: Iter<'_, Items<Value>>) -> Result<u64, NoMemory>
        ensures { IfOk result (λ count.
            count
            ≡ count_by
            (is_counted self.now.view self.now.table.now self.now.query.now
            self.now.columns.now) rows.entry) }
    {
        let mut count = 0;
        for row in rows {
            if self.is_counted(alloc, row)? {
                count = one_more(count)?;
            }
        }
        Ok(count)
    }

    /// The answer, which nothing stands against.
    // The same of rows that are lent one by one.
    fn rows_of(
        &self,
        alloc: Global,
        rows: &[&Items<Value>],
    ) -> Result<Items<Items<Value>>, NoMemory>
        ensures { IfOk result (λ found.
            found
            ≡ filter_map
            (given self.now.view self.now.table.now self.now.query.now self.now.columns.now)
            (map (λ row. row.now) rows.now)) }
    {
        let mut found = Items::new(alloc);
        for row in rows {
            if let Some(values) = self.given(alloc, row)? {
                found.push(values)?;
            }
        }
        Ok(found)
    }

    fn count_of(&self, alloc: Global, rows: &[&Items<Value>]) -> Result<u64, NoMemory>
        ensures { IfOk result (λ count.
            count
            ≡ count_by
            (is_counted self.now.view self.now.table.now self.now.query.now
            self.now.columns.now) (map (λ row. row.now) rows.now)) }
    {
        let mut count = 0;
        for row in rows {
            if self.is_counted(alloc, row)? {
                count = one_more(count)?;
            }
        }
        Ok(count)
    }

    pub fn answered_of(&self, alloc: Global, rows: &[&Items<Value>]) -> Result<Answered, NoMemory>
        ensures { IfOk result (λ answered.
            answered
            ≡ answer_from
            (record {
              columns = self.now.columns.now;
              rows = shown_rows self.now.view self.now.table.now (map (λ row. row.now) rows.now);
            }) self.now.query.now) }
    {
        match &self.query.wanted {
            Wanted::Count => counted(alloc, self.count_of(alloc, rows)?),
            Wanted::All => Ok(Answered {
                columns: self.columns.len() as u64,
                rows: self.rows_of(alloc, rows)?,
            }),
            Wanted::Columns(names) => Ok(Answered {
                columns: names.len() as u64,
                rows: self.rows_of(alloc, rows)?,
            }),
        }
    }

    pub fn answered(
        &self,
        alloc: Global,
        rows: Iter<'_, Items<Value>>,
    ) -> Result<Answered, NoMemory>
        ensures { IfOk result (λ answered.
            answered
            ≡ answer_from
            (record {
              columns = self.now.columns.now;
              rows = shown_rows self.now.view self.now.table.now rows.entry;
            }) self.now.query.now) }
    {
        match &self.query.wanted {
            Wanted::Count => counted(alloc, self.count(alloc, rows)?),
            Wanted::All => Ok(Answered {
                columns: self.columns.len() as u64,
                rows: self.rows(alloc, rows)?,
            }),
            Wanted::Columns(names) => Ok(Answered {
                columns: names.len() as u64,
                rows: self.rows(alloc, rows)?,
            }),
        }
    }
}

// More rows than can be counted fit into no memory.
fn one_more(count: u64) -> Result<u64, NoMemory>
    ensures { IfOk result (λ more. more ≡ count + 1) }
{
    match count.checked_add(1) {
        Some(more) => Ok(more),
        None => Err(NoMemory),
    }
}

fn counted(alloc: Global, count: u64) -> Result<Answered, NoMemory>
    ensures { IfOk result
        (λ answered. answered ≡ record { columns = 1; rows = (Int (pos count) ∷ []) ∷ [] }) }
{
    let Ok(number) = i64::try_from(count) else {
        return Err(NoMemory);
    };
    let mut row = Items::new(alloc);
    row.push(Value::Int(number))?;
    let mut rows = Items::new(alloc);
    rows.push(row)?;
    Ok(Answered { columns: 1, rows })
}
