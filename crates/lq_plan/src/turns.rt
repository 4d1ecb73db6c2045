ghost use Rattle.std.specs.List.{cons_option, list_any};
ghost use Rattle.std.specs.Option.{option_map};
ghost use Rattle.std.specs.Prelude.{◌≡◌, ◌++◌, [], IfOk, List, OnOk, codes, map};
ghost use Rattle.lq_base.specs.Name.{is_text};
ghost use Rattle.lq_base.specs.declared.tracking.Tracked.{Tracked as Row};
ghost use Rattle.lq_turns.specs.Printed.{if_pending, pending};
ghost use Rattle.lq_turns.specs.Set.{excuses, sum_by_form};
ghost use Rattle.lq_turns.specs.Settle.{greatest, has_changed, is_to_fill, runs_again, what, what_by};
ghost use Rattle.lq_plan.specs.Told.{headed, HasRows, item_at, work};

use crate::head::Head;
use crate::row_index::{RowIndex, index_of, row_at};
use lq_base::{Duplicate, Identity, Items, NoMemory, Text, Tracked};
use lq_sums::{is_to_fill, sum_by_form};
use lq_turns::What;
use std::alloc::Global;

/// A changeset that has a turn: its place in the changelog, from 0, and what that turn is by its row.
#[derive(Clone, Copy, PartialEq, Eq)]
pub struct Item {
    pub index: usize,
    pub what: What,
}

/// The changesets that have a turn on these rows, in order.
pub fn work<'a>(
    alloc: Global,
    heads: &'a [Head<'a>],
    rows: &'a [Tracked],
) -> Result<Items<Item>, NoMemory>
    ensures { IfOk result (λ items. items ≡ work (map headed heads.now) rows.now) }
{
    let index = index_of(alloc, rows)?;
    let mut items = Items::new(alloc);
    let mut place = 0;
    for head in heads {
        add_item(&mut items, place, what(&index, head))?;
        place += 1;
    }
    Ok(items)
}

fn add_item(items: &mut Items<Item>, index: usize, what: Option<What>) -> Result<(), NoMemory>
    ensures { OnOk result (items.new ≡ items.old ++ item_at index what) }
{
    if let Some(what) = what {
        items.push(Item { index, what })?;
    }
    Ok(())
}

/// The changesets whose turn on these rows is new or again, in order.
pub fn pending<'a>(
    alloc: Global,
    heads: &'a [Head<'a>],
    rows: &'a [Tracked],
) -> Result<Items<Identity>, NoMemory>
    ensures { IfOk result (λ found. found ≡ pending (map headed heads.now) rows.now) }
{
    let index = index_of(alloc, rows)?;
    let mut found = Items::new(alloc);
    for head in heads {
        add_pending(alloc, &mut found, head.identity, what(&index, head))?;
    }
    Ok(found)
}

fn add_pending(
    alloc: Global,
    found: &mut Items<Identity>,
    of: &Identity,
    what: Option<What>,
) -> Result<(), NoMemory>
    ensures { OnOk result (found.new ≡ found.old ++ cons_option (if_pending of.now what) []) }
{
    if let Some(What::New | What::Again) = what {
        found.push(of.duplicate(alloc)?)?;
    }
    Ok(())
}

/// Whether it has a turn, and what that is by its row.
fn what<'a>(index: &RowIndex<'a>, head: &'a Head<'a>) -> Option<What>
    ensures { (rows : List Row) → HasRows rows index.now
        → result ≡ what (headed head.now) rows }
{
    if !head.selected {
        return None;
    }
    what_by(head, row_at(index, head.identity))
}

/// New without a row; with one, again or its sum filled in, or nothing.
fn what_by(head: &Head<'_>, row: Option<&Tracked>) -> Option<What>
    ensures { result ≡ what_by (headed head.now) (option_map (λ row. row.now) row.entry) }
{
    let Some(row) = row else {
        return Some(What::New);
    };
    if runs_again(head, row) {
        Some(What::Again)
    } else if is_filled(head, &row.md5sum) {
        Some(What::Fill)
    } else {
        None
    }
}

fn runs_again(head: &Head<'_>, row: &Tracked) -> bool
    ensures { result ≡ runs_again (headed head.now) row.now }
{
    head.run_always || (head.run_on_change && has_changed(head, &row.md5sum))
}

/// The checksum of the changeset in the form of a stored one.
pub fn sum_like<'a>(head: &Head<'a>, stored: &Text) -> &'a Text
    ensures { result.now ≡ sum_by_form head.now.old_sum.now head.now.sum.now stored.now }
{
    sum_by_form(head.old_sum, head.sum, stored)
}

/// Whether a stored checksum is the changeset's own, in either form.
fn is_own_sum(head: &Head<'_>, stored: &Text) -> bool
    ensures { result
        ≡ is_text stored.now (sum_by_form head.now.old_sum.now head.now.sum.now stored.now) }
{
    *stored == *sum_like(head, stored)
}

/// Whether a stored checksum is not null, not the changeset's own and not excused.
pub fn has_changed(head: &Head<'_>, stored: &Option<Text>) -> bool
    ensures { result ≡ has_changed (headed head.now) stored.now }
{
    match stored {
        Some(sum) => !is_own_sum(head, sum) && !is_excused(sum, head.valid_sums),
        None => false,
    }
}

/// Whether a stored checksum is null, or the changeset's own in the old form.
fn is_filled(head: &Head<'_>, stored: &Option<Text>) -> bool
    ensures { result ≡ is_to_fill (headed head.now) stored.now }
{
    is_to_fill(head.old_sum, stored)
}

/// Whether `validCheckSum` has the stored checksum.
fn is_excused(sum: &Text, valid_sums: &[Text]) -> bool
    ensures { result ≡ list_any (excuses sum.now) valid_sums.now }
{
    valid_sums.iter().any(|valid| excuses(sum, valid))
}

/// `ANY` stands for every checksum.
fn excuses(sum: &Text, valid: &Text) -> bool
    ensures { result ≡ excuses sum.now valid.now }
{
    is_any(valid.as_str()) || *sum == *valid
}

fn is_any(text: &str) -> bool
    ensures { result ≡ is_text (codes "ANY") text.now }
{
    "ANY" == text
}

/// The last place in run order, 0 without a row.
pub fn greatest(rows: &[Tracked]) -> u32
    ensures { result ≡ greatest rows.now }
{
    let mut last = 0;
    let mut rest = rows;
    while let [row, after @ ..] = rest {
        last = last.max(row.order);
        rest = after;
    }
    last
}
