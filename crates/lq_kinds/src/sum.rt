ghost use Rattle.std.specs.Prelude.{◌≡◌, ◌++◌, IfOk, OnOk, map};
ghost use Rattle.lq_model.specs.Changes.{IsFinished, canonical_changes, canonical_each};
ghost use Rattle.lq_any.specs.AnyChange.{canonical_of};
ghost use Rattle.lq_kinds.specs.ChangeSets.{old_sum_of, sum_of};

use lq_any::AnyChange;
use lq_base::{NoMemory, Text};
use lq_canon::{BothSums, checksums};
use lq_model::{Canon, Change};
use std::alloc::Global;

/// The checksum of changes, and the one of the old form.
#[derive(Drop)]
pub struct Sums {
    pub sum: Text,
    pub old_sum: Text,
}

fn write_each(canon: &mut Canon, changes: &[AnyChange]) -> Result<(), NoMemory>
    ensures written { OnOk result
        (canon.new.written ≡ canon.old.written ++ canonical_each (map canonical_of changes.now)) }
    ensures begun { OnOk result (canon.new.begun ≡ canon.old.begun) }
{
    let mut rest = changes;
    while let [change, after @ ..] = rest {
        change.canon(canon)?;
        rest = after;
    }
    Ok(())
}

fn canonical_text(alloc: Global, changes: &[AnyChange]) -> Result<Canon, NoMemory>
    ensures written { IfOk result
        (λ canon. canon.written ≡ canonical_changes (map canonical_of changes.now)) }
    ensures finished { IfOk result IsFinished }
{
    let mut canon = Canon::new(alloc);
    canon.begin_list()?;
    write_each(&mut canon, changes)?;
    canon.end_list()?;
    Ok(canon)
}

/// The checksums of the changes of a changeset.
pub fn sums_of(alloc: Global, changes: &[AnyChange]) -> Result<Sums, NoMemory>
    ensures sum { IfOk result (λ sums. sums.sum ≡ sum_of changes.now) }
    ensures old { IfOk result (λ sums. sums.old_sum ≡ old_sum_of changes.now) }
{
    let canon = canonical_text(alloc, changes)?;
    let BothSums { new, old } = checksums(alloc, &canon)?;
    Ok(Sums {
        sum: new,
        old_sum: old,
    })
}
