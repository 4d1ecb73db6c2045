ghost use Rattle.std.specs.List.{list_all};
ghost use Rattle.std.specs.Prelude.{◌≡◌, ◌++◌, IfOk, OnOk, reverse, true};
ghost use Rattle.lq_any.specs.AnyChange.{is_for};
ghost use Rattle.lq_sets.specs.Counting.{after_first, begins_at, begins_from, begins_none, first_of};

use lq_base::{Dialect, Items, NoMemory};
use lq_kinds::{AnyChange, statement_count};
use std::alloc::Global;

/// Of each statement that the changes give, the place of the change that begins with it, from 0,
/// where one does. The first statement's is the last.
pub fn beginnings(
    alloc: Global,
    dialect: Dialect,
    changes: &[AnyChange],
) -> Result<Items<Option<usize>>, NoMemory>
    requires read { list_all (is_for dialect) changes.now ≡ true }
    ensures { IfOk result (λ made. reverse made ≡ begins_from dialect 0 changes.now) }
{
    let mut beginnings = Items::new(alloc);
    let mut rest = changes;
    while let Some((change, front)) = rest.split_last() {
        let count = statement_count(alloc, dialect, change)?;
        push_change(&mut beginnings, front.len(), count)?;
        rest = front;
    }
    Ok(beginnings)
}

/// A change that gives so many statements.
fn push_change(
    beginnings: &mut Items<Option<usize>>,
    change: usize,
    count: usize,
) -> Result<(), NoMemory>
    ensures { OnOk result
        (reverse beginnings.new ≡ begins_at change count ++ reverse beginnings.old) }
{
    if count == 0 {
        return Ok(());
    }
    push_none(beginnings, count - 1)?;
    beginnings.push(Some(change))?;
    Ok(())
}

/// So many statements with which no change begins.
fn push_none(beginnings: &mut Items<Option<usize>>, count: usize) -> Result<(), NoMemory>
    ensures { OnOk result (reverse beginnings.new ≡ begins_none count ++ reverse beginnings.old) }
{
    let mut left = count;
    while left > 0 {
        beginnings.push(None)?;
        left -= 1;
    }
    Ok(())
}

/// Takes what the next statement begins, if it begins a change.
pub fn next_beginning(beginnings: &mut Items<Option<usize>>) -> Option<usize>
    ensures first { result ≡ first_of (reverse beginnings.old) }
    ensures rest { reverse beginnings.new ≡ after_first (reverse beginnings.old) }
{
    match beginnings.pop() {
        Some(beginning) => beginning,
        None => None,
    }
}
