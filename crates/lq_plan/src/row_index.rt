ghost use Rattle.std.specs.Prelude.{◌≡◌, IfOk, List, OnOk};
ghost use Rattle.std.specs.Option.{option_map};
ghost use Rattle.lq_base.specs.declared.tracking.Tracked.{Tracked as Row};
ghost use Rattle.lq_turns.specs.Set.{row_at};
ghost use Rattle.lq_plan.specs.Told.{HasRows, KeepsAlso};

use lq_base::{Identity, NoMemory, Tracked};
use std::alloc::Global;
use std::collections::BTreeMap;

/// An identity as a key: an id, an author and a file, which most of them share.
pub type IdentityKey<'a> = (&'a str, &'a str, &'a str);

/// The rows, for looking up whose they are.
pub type RowIndex<'a> = BTreeMap<IdentityKey<'a>, &'a Tracked>;

fn keep<'a>(index: &mut RowIndex<'a>, row: &'a Tracked) -> Result<(), NoMemory>
    ensures { OnOk result (KeepsAlso index.old index.new row.now) }
{
    let key = (row.id.as_str(), row.author.as_str(), row.filename.as_str());
    match index.insert(key, row) {
        Ok(_) => Ok(()),
        Err(_) => Err(NoMemory),
    }
}

/// Each row by its identity, and of several with one identity the first.
#[tactic(auto, using(crate::proofs::Indexed::partly_none, crate::proofs::Indexed::partly_more, crate::proofs::Indexed::has_rows))]
pub fn index_of<'a>(alloc: Global, rows: &'a [Tracked]) -> Result<RowIndex<'a>, NoMemory>
    ensures { IfOk result (λ index. HasRows rows.now index) }
{
    let mut index = BTreeMap::new(alloc);
    let mut rest = rows;
    while let Some((row, front)) = rest.split_last() {
        keep(&mut index, row)?;
        rest = front;
    }
    Ok(index)
}

/// The row of the changeset.
pub fn row_at<'a>(index: &RowIndex<'a>, of: &'a Identity) -> Option<&'a Tracked>
    ensures { (rows : List Row)
        → HasRows rows index.now
        → option_map (λ row. row.now) result ≡ row_at of.now rows }
{
    match index.get(&(of.id.as_str(), of.author.as_str(), of.file.as_str())) {
        Some(row) => Some(*row),
        None => None,
    }
}
