ghost use Rattle.std.specs.Prelude.{◌≡◌, ◌≤◌, IfOk, List};
ghost use Rattle.lq_base.specs.declared.tracking.Tracked.{Tracked as Row};
ghost use Rattle.lq_expr.specs.declared.options.Options.{Options};
ghost use Rattle.lq_turns.specs.Settle.{greatest, record_in, recorded, row_for};
ghost use Rattle.lq_seen.specs.View.{view};

use crate::described::{described, tag_of};
use lq_base::{Exec, NoMemory, Tracked};
use lq_kinds::ChangeSet;
use lq_track::{Ran, row_of};
use lq_turns::{OnRows, What};
use std::alloc::Global;

/// The row of a changeset at this place of the run order, for a reading of the clock in milliseconds
/// since 1970-01-01 UTC.
pub fn row_of_turn(
    alloc: Global,
    set: &ChangeSet,
    reading: u64,
    order: u32,
    exec: Exec,
) -> Result<Tracked, NoMemory>
    requires moment { reading ≤ 253402300799999 }
    ensures { IfOk result
        (λ row. (options : Options)
        → row ≡ row_for reading order exec (view options set.now)) }
{
    let description = described(alloc, set.changes.as_slice())?;
    let tag = tag_of(alloc, set.changes.as_slice())?;
    row_of(
        alloc,
        Ran {
            identity: &set.identity,
            reading,
            order,
            exec,
            checksum: &set.sum,
            description: &description,
            comments: &set.comment,
            tag: &tag,
            contexts: &set.context_text,
            labels: &set.labels_text,
        },
    )
}

fn recorded(what: What, row: Tracked) -> OnRows
    ensures { result ≡ recorded what row }
{
    match what {
        What::New => OnRows::Inserted(row),
        What::Again | What::Fill => OnRows::Renewed(row),
    }
}

/// What becomes of the row of a changeset that ran or was marked: it goes behind the rows, of which
/// the last one in run order stands at `last`, 0 without a row.
pub fn recorded_row(
    alloc: Global,
    set: &ChangeSet,
    what: What,
    exec: Exec,
    reading: u64,
    last: u32,
) -> Result<OnRows, NoMemory>
    requires moment { reading ≤ 253402300799999 }
    requires room { last ≤ 2147483647 }
    ensures { IfOk result (λ made.
        (options : Options) (rows : List Row)
        → greatest rows ≡ last
        → made ≡ record_in reading what exec (view options set.now) rows) }
{
    let row = row_of_turn(alloc, set, reading, last + 1, exec)?;
    Ok(recorded(what, row))
}
