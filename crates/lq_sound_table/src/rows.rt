ghost use Rattle.std.specs.List.{filter, list_all, list_any};
ghost use Rattle.std.specs.Option.{option_copied};
ghost use Rattle.std.specs.Prelude.{◌≡◌, ◌++◌, IfOk, map};
ghost use Rattle.lq_model.specs.Plan as spec;
ghost use Rattle.lq_model.specs.Catalogue.{has_bad_null, has_equals, picked, row_fits, key_list};

use lq_base::{Name, NoMemory, Value};
use lq_chain::Chain;
use lq_model::{Column, Index, Key, Unique};
use lq_rows::{Held, Row, are_twins, is_null};
use std::alloc::Global;

fn row_fits(columns: &[Column], row: &[Value]) -> bool
    ensures { result ≡ row_fits columns.now row.now }
{
    let mut rest = columns;
    let mut values = row;
    while let Some((column, more)) = rest.split_first() {
        let Some((value, others)) = values.split_first() else {
            return false;
        };
        if !value.is_of(column.kind) {
            return false;
        }
        rest = more;
        values = others;
    }
    values.is_empty()
}

/// Whether each row has for each column null or a value of its kind.
pub fn rows_fit(columns: &[Column], rows: &Chain<Row>) -> bool
    ensures { result ≡ list_all (row_fits columns.now) rows.now.now }
{
    for row in rows.iter() {
        if !row_fits(columns, row.as_slice()) {
            return false;
        }
    }
    true
}

fn has_bad_null(columns: &[Column], row: &[Value]) -> bool
    ensures { result ≡ has_bad_null columns.now row.now }
{
    let mut rest = columns;
    let mut values = row;
    while let Some((column, more)) = rest.split_first() {
        let Some((value, others)) = values.split_first() else {
            return false;
        };
        if !column.nullable && is_null(value) {
            return true;
        }
        rest = more;
        values = others;
    }
    false
}

/// Whether a NOT NULL column of one of the rows holds null.
pub fn has_null(columns: &[Column], rows: &Chain<Row>) -> bool
    ensures { result ≡ list_any (has_bad_null columns.now) rows.now.now }
{
    for row in rows.iter() {
        if has_bad_null(columns, row.as_slice()) {
            return true;
        }
    }
    false
}

fn key_twins(
    alloc: Global,
    columns: &[Column],
    rows: &Chain<Row>,
    key: Option<&Key>,
) -> Result<bool, NoMemory>
    ensures { IfOk result
        (λ found. found
        ≡ list_any (λ k. has_equals (map (picked columns.now k.columns) rows.now.now))
        (key_list (option_copied key.entry))) }
{
    match key {
        None => Ok(false),
        Some(key) => are_twins(alloc, columns, key.columns.as_slice(), rows),
    }
}

fn unique_twins(
    alloc: Global,
    columns: &[Column],
    rows: &Chain<Row>,
    uniques: &[Unique],
) -> Result<bool, NoMemory>
    ensures { IfOk result
        (λ found. found
        ≡ list_any (λ u. has_equals (map (picked columns.now u.columns) rows.now.now))
        uniques.now) }
{
    for unique in uniques {
        if are_twins(alloc, columns, unique.columns.as_slice(), rows)? {
            return Ok(true);
        }
    }
    Ok(false)
}

fn index_twins(
    alloc: Global,
    columns: &[Column],
    rows: &Chain<Row>,
    indexes: &[Index],
) -> Result<bool, NoMemory>
    ensures { IfOk result
        (λ found. found
        ≡ list_any (λ i. has_equals (map (picked columns.now i.columns) rows.now.now))
        (filter (λ i. i.unique) indexes.now)) }
{
    for index in indexes {
        if !index.unique {
            continue;
        }
        if are_twins(alloc, columns, index.columns.as_slice(), rows)? {
            return Ok(true);
        }
    }
    Ok(false)
}

fn twins_in(
    alloc: Global,
    columns: &[Column],
    rows: &Chain<Row>,
    key: Option<&Key>,
    uniques: &[Unique],
    indexes: &[Index],
) -> Result<bool, NoMemory>
    ensures { IfOk result
        (λ found. found ≡ list_any (λ ns. has_equals (map (picked columns.now ns) rows.now.now))
        ((map (λ k. k.columns) (key_list (option_copied key.entry))
        ++ map (λ u. u.columns) uniques.now)
        ++ map (λ i. i.columns) (filter (λ i. i.unique) indexes.now))) }
{
    let key = key_twins(alloc, columns, rows, key)?;
    let unique = unique_twins(alloc, columns, rows, uniques)?;
    let index = index_twins(alloc, columns, rows, indexes)?;
    Ok((key | unique) | index)
}

/// Whether two rows are equal in the key, a unique constraint or a unique index: by sets, in
/// O(n log n) for each.
pub fn has_twins(alloc: Global, held: &Held) -> Result<bool, NoMemory>
    ensures { IfOk result (λ found. found ≡ spec.table_has_twins held.now.now) }
{
    twins_in(
        alloc,
        held.columns(),
        held.rows(),
        held.key(),
        held.uniques(),
        held.indexes(),
    )
}

/// Whether the table has more rows than a table may have.
pub fn is_full(held: &Held) -> bool
    ensures { result ≡ spec.is_full held.now.now }
{
    held.len() > 100_000
}
