ghost use Rattle.std.specs.BTreeSet.{contains};
ghost use Rattle.std.specs.List.{list_any};
ghost use Rattle.std.specs.Prelude.{◌≡◌, ◌||◌, IfOk, List, OnOk, map};
ghost use Rattle.lq_base.specs.declared.value.Value.{Value as Held};
ghost use Rattle.lq_model.specs.Catalogue.{has_equals, picked, same_values};
ghost use Rattle.lq_rows.specs.Stored.{values_cmp, is_among, is_apart};

use crate::held::Row;
use crate::pick::{has_null, picked};
use crate::values::Values;
use lq_base::{Name, NoMemory, Value};
use lq_chain::Chain;
use lq_model::Column;
use std::alloc::Global;
use std::collections::BTreeSet;

/// Adds the values of a row in some columns, unless one of them is null, and answers whether they
/// stood there already.
fn note(
    alloc: Global,
    set: &mut BTreeSet<Values>,
    columns: &[Column],
    names: &[Name],
    row: &[Value],
) -> Result<bool, NoMemory>
    ensures found { IfOk result
        (λ found. found ≡ is_among set.old (picked columns.now names.now row.now)) }
    ensures set { OnOk result
        ((values : List Held)
        → contains values_cmp set.new values
        ≡
        (same_values values (picked columns.now names.now row.now)
        || contains values_cmp set.old values)) }
{
    let values = picked(alloc, columns, names, row)?;
    if has_null(values.as_slice()) {
        return Ok(false);
    }
    let is_new = set.insert(Values::new(values))?;
    Ok(!is_new)
}

/// Whether two of the rows are equal in these columns: by a set of their values, in O(n log n).
pub fn are_twins(
    alloc: Global,
    columns: &[Column],
    names: &[Name],
    rows: &Chain<Row>,
) -> Result<bool, NoMemory>
    ensures { IfOk result
        (λ found. found ≡ has_equals (map (picked columns.now names.now) rows.now.now)) }
{
    let mut set = BTreeSet::new(alloc);
    for row in rows.iter() {
        if note(alloc, &mut set, columns, names, row.as_slice())? {
            return Ok(true);
        }
    }
    Ok(false)
}

fn lacks(
    alloc: Global,
    columns: &[Column],
    names: &[Name],
    row: &[Value],
    set: &BTreeSet<Values>,
) -> Result<bool, NoMemory>
    ensures { IfOk result
        (λ found. found ≡ is_apart set.now (picked columns.now names.now row.now)) }
{
    let values = picked(alloc, columns, names, row)?;
    if has_null(values.as_slice()) {
        return Ok(false);
    }
    Ok(!set.contains(&Values::new(values)))
}

/// Whether one of the rows has values in these columns, none of them null, that the set has not.
pub fn lacks_one(
    alloc: Global,
    columns: &[Column],
    names: &[Name],
    rows: &Chain<Row>,
    set: &BTreeSet<Values>,
) -> Result<bool, NoMemory>
    ensures { IfOk result (λ found.
        found
        ≡ list_any (λ row. is_apart set.now (picked columns.now names.now row)) rows.now.now) }
{
    for row in rows.iter() {
        if lacks(alloc, columns, names, row.as_slice(), set)? {
            return Ok(true);
        }
    }
    Ok(false)
}
