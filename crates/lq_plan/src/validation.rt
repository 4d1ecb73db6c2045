ghost use Rattle.std.specs.Option.{option_map};
ghost use Rattle.std.specs.Prelude.{◌≡◌, ◌++◌, ◌∷◌, [], IfOk, List, OnOk, if◌then◌else◌, map};
ghost use Rattle.lq_turns.specs.Set.{sum_by_form};
ghost use Rattle.lq_turns.specs.Faults.{changed_at, changed_by, faults};
ghost use Rattle.lq_turns.specs.declared.fault.Fault.TheVariants as fault;
ghost use Rattle.lq_plan.specs.Told.{headed};

use crate::head::Head;
use crate::row_index::{index_of, row_at};
use crate::seen::{key_of, was_seen};
use crate::turns::{has_changed, sum_like};
use lq_base::{Duplicate, Identity, Items, NoMemory, Text, Tracked};
use lq_turns::Fault;
use std::alloc::Global;
use std::collections::BTreeSet;

/// What is wrong with the changesets on these rows, in order: of each that is here, first that an
/// earlier one that is here has its identity, and then that its row has another checksum.
pub fn faults<'a>(
    alloc: Global,
    heads: &'a [Head<'a>],
    rows: &'a [Tracked],
) -> Result<Items<Fault>, NoMemory>
    ensures { IfOk result (λ found. found ≡ faults (map headed heads.now) rows.now) }
{
    let index = index_of(alloc, rows)?;
    let mut seen = BTreeSet::new(alloc);
    let mut found = Items::new(alloc);
    for head in heads {
        if head.here {
            let is_twice = was_seen(&mut seen, &key_of(head.identity))?;
            add_twice(alloc, &mut found, head.identity, is_twice)?;
            add_changed_at(alloc, &mut found, head, row_at(&index, head.identity))?;
        }
    }
    Ok(found)
}

fn add_twice(
    alloc: Global,
    found: &mut Items<Fault>,
    identity: &Identity,
    is_twice: bool,
) -> Result<(), NoMemory>
    ensures { OnOk result
        (found.new ≡ found.old ++ (if is_twice then fault.Twice identity.now ∷ [] else [])) }
{
    if is_twice {
        found.push(Fault::Twice(identity.duplicate(alloc)?))?;
    }
    Ok(())
}

fn add_changed_at(
    alloc: Global,
    found: &mut Items<Fault>,
    head: &Head<'_>,
    row: Option<&Tracked>,
) -> Result<(), NoMemory>
    ensures { OnOk result
        (found.new
        ≡ found.old ++ changed_at (headed head.now) (option_map (λ row. row.now) row.entry)) }
{
    match row {
        Some(row) => add_changed(alloc, found, head, &row.md5sum),
        None => Ok(()),
    }
}

fn add_changed(
    alloc: Global,
    found: &mut Items<Fault>,
    head: &Head<'_>,
    stored: &Option<Text>,
) -> Result<(), NoMemory>
    ensures { OnOk result (found.new ≡ found.old ++ changed_by (headed head.now) stored.now) }
{
    let Some(was) = stored else {
        return Ok(());
    };
    if has_changed(head, stored) && !head.run_on_change {
        found.push(changed(alloc, head, was)?)?;
    }
    Ok(())
}

fn changed(alloc: Global, head: &Head<'_>, was: &Text) -> Result<Fault, NoMemory>
    ensures { IfOk result (λ made.
        made
        ≡ fault.Changed head.now.identity.now was.now
        (sum_by_form head.now.old_sum.now head.now.sum.now was.now)) }
{
    Ok(Fault::Changed {
        identity: head.identity.duplicate(alloc)?,
        was: was.copy(alloc)?,
        is: sum_like(head, was).copy(alloc)?,
    })
}
