ghost use Rattle.std.specs.List.{list_all};
ghost use Rattle.std.specs.Prelude.{◌≡◌, ◌++◌, Some, None, MatchOption, IfOk, OnOk, true};
ghost use Rattle.lq_codec.specs.Codec.{each, write_each};
ghost use Rattle.lq_codec.specs.State.{OnTrue};
ghost use Rattle.lq_codec.specs.Tables.{row_codec};
ghost use Rattle.lq_codec.specs.Values.{value_codec};
ghost use Rattle.lq_state.specs.Shaped.{has_width};

use lq_base::{Items, NoMemory, Value};
use lq_coded::{append_each, read_each};
use lq_model::Column;
use std::alloc::Global;

/// So many rows of so many values each.
#[tactic(auto, using(lq_coded::proofs::Each::each_start, lq_coded::proofs::Each::each_end, lq_coded::proofs::Each::each_more, lq_coded::proofs::Each::each_none))]
pub fn rows_in(
    alloc: Global,
    bytes: &[u8],
    n: u64,
    width: usize,
) -> Result<Option<(Items<Items<Value>>, &[u8])>, NoMemory>
    ensures { IfOk result (λ found. MatchOption found
        ((each n (each width value_codec)).read bytes.now ≡ None)
        (λ next. (each n (each width value_codec)).read bytes.now
        ≡ Some (next.0, next.1.now))) }
{
    let mut rows = Items::new(alloc);
    let mut rest = bytes;
    for _i in 0..n {
        match read_each::<Value>(alloc, rest, width as u64)? {
            Some((row, after)) => {
                rows.push(row)?;
                rest = after;
            }
            None => return Ok(None),
        }
    }
    Ok(Some((rows, rest)))
}

/// Appends the values of a row.
pub fn append_row(columns: &[Column], row: &Items<Value>, to: &mut Vec<u8>) -> Result<(), NoMemory>
    ensures bytes { OnOk result
        (to.new.items ≡ to.old.items ++ (row_codec columns.now).write row.now) }
    ensures fits { OnOk result
        (OnTrue (has_width columns.now row.now) ((row_codec columns.now).ok row.now ≡ true)) }
{
    append_each(row.as_slice(), to)?;
    Ok(())
}

/// Appends the values of all rows.
#[tactic(auto, using(lq_coded::proofs::Each::one_written, lq_coded::proofs::Each::all_written, lq_coded::proofs::Each::one_fits, lq_coded::proofs::Each::all_fit))]
pub fn append_rows(
    columns: &[Column],
    rows: &[Items<Value>],
    to: &mut Vec<u8>,
) -> Result<(), NoMemory>
    ensures bytes { OnOk result
        (to.new.items ≡ to.old.items ++ write_each (row_codec columns.now) rows.now) }
    ensures fits { OnOk result (OnTrue (list_all (has_width columns.now) rows.now)
        (list_all (row_codec columns.now).ok rows.now ≡ true)) }
{
    let mut rest = rows;
    while let Some((row, after)) = rest.split_first() {
        append_row(columns, row, to)?;
        rest = after;
    }
    Ok(())
}
