ghost use Rattle.std.specs.Prelude.{◌≡◌, ◌≤◌, None, Some, IfOk, OnErr, length, ℕ};
ghost use Rattle.lq_turns.specs.Script.{has_tag, places_until, rows_kept, tagged_place};

use lq_base::{Target, Text, Tracked};
use thiserror::Error;

/// No row has the tag.
#[derive(Clone, Copy, Debug, PartialEq, Eq, Error)]
#[error("no row has the tag")]
pub struct NoTag;

/// How many rows stay in a rollback to the target; the rows are in run order.
pub fn suffix(rows: &[Tracked], target: &Target) -> Result<usize, NoTag>
    ensures stay { IfOk result (λ stay. rows_kept target.now rows.now ≡ Some stay) }
    ensures missing { OnErr result (rows_kept target.now rows.now ≡ None) }
{
    match target {
        Target::Tag(tag) => match tagged_place(tag, rows) {
            Some(stay) => Ok(stay),
            None => Err(NoTag),
        },
        Target::Count(count) => Ok(rows.len().saturating_sub(*count as usize)),
        Target::Date(at) => Ok(places_until(*at, rows)),
    }
}

/// The place, from 1, of the last row with the tag.
#[tactic(auto, using(crate::proofs::Kept::tag_found, crate::proofs::Kept::tag_passed, crate::proofs::Kept::tag_missing))]
fn tagged_place(tag: &Text, rows: &[Tracked]) -> Option<usize>
    ensures { result ≡ tagged_place tag.now rows.now }
{
    let mut rest = rows;
    while let Some((row, front)) = rest.split_last() {
        if has_tag(tag, row) {
            return Some(rest.len());
        }
        rest = front;
    }
    None
}

fn has_tag(tag: &Text, row: &Tracked) -> bool
    ensures { result ≡ has_tag tag.now row.now.tag }
{
    match &row.tag {
        Some(other) => *tag == *other,
        None => false,
    }
}

/// How many rows stand before the first with a later date.
fn places_until(at: i64, rows: &[Tracked]) -> usize
    ensures { result ≡ places_until at rows.now }
{
    let mut stay = 0;
    let mut rest = rows;
    while let [row, after @ ..] = rest {
        if at < row.date {
            return stay;
        }
        stay += 1;
        rest = after;
    }
    stay
}
