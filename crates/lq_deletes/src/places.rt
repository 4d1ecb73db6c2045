ghost use Rattle.std.specs.BTreeMap.{get};
ghost use Rattle.std.specs.Prelude.{◌≡◌, ◌+◌, ◌≤◌, List, Some, IfOk, OnOk, cond, length};
ghost use Rattle.lq_base.specs.declared.value.Value.{Value as Kept};
ghost use Rattle.lq_model.specs.Catalogue.{picked, same_values};
ghost use Rattle.lq_parts.specs.Steps.{tables_of};
ghost use Rattle.lq_rows.specs.Stored.{values_cmp};
ghost use Rattle.lq_deletes.specs.Places.{ShowsParents, ShowsPlaces, row_total};

use lq_base::{Name, NoMemory, Value};
use lq_chain::Chain;
use lq_model::{Column, ForeignKey};
use lq_rows::{Held, Row, Values, has_null, picked};
use std::alloc::Global;
use std::collections::BTreeMap;

/// Notes the number of a row, unless one of its values is null.
fn put_place(
    alloc: Global,
    places: &mut BTreeMap<Values, usize>,
    columns: &[Column],
    names: &[Name],
    row: &[Value],
    at: usize,
) -> Result<(), NoMemory>
    ensures { OnOk result
        ((values : List Kept)
        → get values_cmp places.new values
        ≡ cond (same_values values (picked columns.now names.now row.now)) (Some at)
        (get values_cmp places.old values)) }
{
    let values = picked(alloc, columns, names, row)?;
    if has_null(values.as_slice()) {
        return Ok(());
    }
    places.insert(Values::new(values), at)?;
    Ok(())
}

/// For the values of the rows in some columns the number of the last row that has them, where the
/// rows are counted from a number on, below the end.
fn places(
    alloc: Global,
    columns: &[Column],
    names: &[Name],
    rows: &Chain<Row>,
    first: usize,
    end: usize,
) -> Result<BTreeMap<Values, usize>, NoMemory>
    requires { first + length rows.now.now ≤ end }
    ensures { IfOk result (λ places. ShowsPlaces columns.now names.now rows.now.now first places) }
{
    let mut places = BTreeMap::new(alloc);
    let mut at = first;
    for row in rows.iter() {
        put_place(alloc, &mut places, columns, names, row.as_slice(), at)?;
        at += 1;
    }
    let _ = end;
    Ok(places)
}

/// The numbers of the rows that a foreign key aims at by the values of its targets: in O(n log n).
pub fn parents_of(
    alloc: Global,
    entries: &[(Name, Held)],
    key: &ForeignKey,
    end: usize,
) -> Result<BTreeMap<Values, usize>, NoMemory>
    requires { row_total (tables_of entries.now) ≤ end }
    ensures { IfOk result (λ places. ShowsParents key.now 0 (tables_of entries.now) places) }
{
    let mut first = 0;
    for entry in entries {
        if key.table == entry.0 {
            let held = &entry.1;
            let targets = key.targets.as_slice();
            let found = places(alloc, held.columns(), targets, held.rows(), first, end)?;
            return Ok(found);
        }
        first += entry.1.len();
    }
    Ok(BTreeMap::new(alloc))
}
