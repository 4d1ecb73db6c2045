ghost use Rattle.std.specs.BTreeSet.{contains};
ghost use Rattle.std.specs.List.{list_any};
ghost use Rattle.std.specs.Prelude.{◌≡◌, ◌||◌, ◌↔◌, List, IsTrue, IfOk, IfSome, OnOk, OnErr, ◌<◌, suc, vec_len, [], ◌∷◌, ◌++◌, false};
ghost use Rattle.lq_base.specs.declared.value.Value.{Value as Held};
ghost use Rattle.lq_model.specs.declared.column.Column.{Column as Shape};
ghost use Rattle.lq_model.specs.Catalogue.{is_null, picked, same_values};
ghost use Rattle.lq_rows.specs.Stored.{values_cmp, AllShow, ShowWith, ShowsRows, has_values};

use crate::held::{Row, Seen};
use crate::pick::{has_null, picked};
use crate::values::Values;
use lq_base::{Duplicate, Items, Name, NoMemory, Same};
use lq_chain::Chain;
use lq_model::Column;
use std::alloc::Global;
use std::collections::BTreeSet;

/// Adds the values of a row in some columns, unless one of them is null.
#[tactic(auto, using(crate::proofs::SeenLemmas::added, crate::proofs::SeenLemmas::null_added))]
fn add(
    alloc: Global,
    set: &mut BTreeSet<Values>,
    columns: &[Column],
    names: &[Name],
    row: &[lq_base::Value],
) -> Result<(), NoMemory>
    ensures { OnOk result
        ((values : List Held)
        → contains values_cmp set.new values
        ≡
        (same_values values (picked columns.now names.now row.now)
        || contains values_cmp set.old values)) }
{
    let values = picked(alloc, columns, names, row)?;
    if has_null(values.as_slice()) {
        return Ok(());
    }
    set.insert(Values::new(values))?;
    Ok(())
}

/// The values of the rows in some columns, without the rows that have a null there.
pub fn see(
    alloc: Global,
    columns: &[Column],
    names: &[Name],
    rows: &Chain<Row>,
) -> Result<BTreeSet<Values>, NoMemory>
    ensures { IfOk result (λ set. ShowsRows columns.now names.now rows.now.now set) }
{
    let mut set = BTreeSet::new(alloc);
    for row in rows.iter() {
        add(alloc, &mut set, columns, names, row.as_slice())?;
    }
    Ok(set)
}

fn same_names(a: &[Name], b: &[Name]) -> bool
    ensures { IsTrue result ↔ (a.now ≡ b.now) }
{
    if a.len() != b.len() {
        return false;
    }
    for at in 0..a.len() {
        if !a[at].same(&b[at]) {
            return false;
        }
    }
    true
}

/// Whether a row has these values in these columns, where that is known.
pub fn has_seen(seen: &[Seen], names: &[Name], values: &Values) -> Option<bool>
    ensures { (columns : List Shape) (rows : List (List Held))
        → AllShow columns rows seen.now
        → IfSome result (λ found. found ≡ has_values columns names.now rows values.now) }
{
    let mut left = seen;
    while let Some((one, after)) = left.split_first() {
        if same_names(one.columns.as_slice(), names) {
            return Some(one.values.contains(values));
        }
        left = after;
    }
    None
}

#[tactic(auto, using(crate::proofs::SeenLemmas::none_with, crate::proofs::SeenLemmas::all_with))]
/// Adds a new row to what is known, or drops that where memory is wanting.
pub fn keep_up(alloc: Global, seen: &mut Vec<Seen>, columns: &[Column], row: &[lq_base::Value])
    ensures { (rows : List (List Held))
        → AllShow columns.now rows seen.old.items
        → AllShow columns.now (rows ++ row.now ∷ []) seen.new.items }
{
    for at in 0..seen.len() {
        if learn(alloc, seen, at, columns, row).is_err() {
            seen.clear();
            return;
        }
    }
}

/// Adds a new row to what is known at the place.
fn learn(
    alloc: Global,
    seen: &mut Vec<Seen>,
    at: usize,
    columns: &[Column],
    row: &[lq_base::Value],
) -> Result<(), NoMemory>
    requires { at < vec_len seen.old }
    ensures ok { OnOk result
        ((rows : List (List Held))
        → ShowWith at columns.now rows row.now seen.old.items
        → ShowWith (suc at) columns.now rows row.now seen.new.items) }
    ensures len { vec_len seen.new ≡ vec_len seen.old }
{
    let one = &mut seen[at];
    add(alloc, &mut one.values, columns, one.columns.as_slice(), row)?;
    Ok(())
}

/// What is known of the rows in some columns.
pub fn see_all(
    alloc: Global,
    columns: &[Column],
    names: &[Name],
    rows: &Chain<Row>,
) -> Result<Seen, NoMemory>
    ensures { IfOk result (λ seen.
        (seen.columns ≡ names.now) × ShowsRows columns.now names.now rows.now.now seen.values) }
{
    let values = see(alloc, columns, names, rows)?;
    let mut copy = Items::new(alloc);
    for name in names {
        copy.push(name.duplicate(alloc)?)?;
    }
    Ok(Seen {
        columns: copy,
        values,
    })
}

/// Whether a row has these values in these columns, by what is known or gets known.
pub fn asked(
    alloc: Global,
    seen: &mut Vec<Seen>,
    columns: &[Column],
    rows: &Chain<Row>,
    names: &[Name],
    values: &Values,
) -> Result<bool, NoMemory>
    requires { AllShow columns.now rows.now.now seen.old.items }
    ensures found { IfOk result
        (λ found. found ≡ has_values columns.now names.now rows.now.now values.now) }
    ensures kept { AllShow columns.now rows.now.now seen.new.items }
{
    if let Some(found) = has_seen(seen, names, values) {
        return Ok(found);
    }
    let one = see_all(alloc, columns, names, rows)?;
    let found = one.values.contains(values);
    put_seen(seen, one)?;
    Ok(found)
}

fn put_seen(all: &mut Vec<Seen>, seen: Seen) -> Result<(), NoMemory>
    ensures ok { OnOk result
        ((columns : List Shape) (rows : List (List Held))
        → AllShow columns rows all.old.items
        → ShowsRows columns seen.columns rows seen.values
        → AllShow columns rows all.new.items) }
    ensures err { OnErr result (all.new.items ≡ all.old.items) }
{
    all.push(seen)?;
    Ok(())
}
