ghost use Rattle.std.specs.List.{list_any};
ghost use Rattle.std.specs.Prelude.{◌≡◌, ◌||◌, IfOk, OnOk, map, not};
ghost use Rattle.lq_base.specs.Name.{is_named};
ghost use Rattle.lq_base.specs.declared.name.Name.{Name as Bytes};
ghost use Rattle.lq_model.specs.Catalogue as spaces;
ghost use Rattle.lq_arm.specs.Verdict.{has_name};

use lq_base::{Name, NoMemory};
use lq_model::Column;
use std::alloc::Global;
use std::collections::BTreeSet;

/// Whether the name was known. It is afterwards.
fn was_known<'a>(known: &mut BTreeSet<&'a Name>, name: &'a Name) -> Result<bool, NoMemory>
    ensures was { IfOk result (λ was. was ≡ has_name known.old name.now) }
    ensures also { OnOk result
        ((n : Bytes) → has_name known.new n ≡ (is_named n name.now || has_name known.old n)) }
{
    match known.insert(name) {
        Ok(new) => Ok(!new),
        Err(_) => Err(NoMemory),
    }
}

/// Whether one of the names stands there twice: in O(n log n).
#[tactic(auto, using(crate::proofs::Known::repeats_first, crate::proofs::Known::repeats_found))]
pub fn repeats(alloc: Global, names: &[Name]) -> Result<bool, NoMemory>
    ensures { IfOk result (λ found. found ≡ spaces.repeats names.now) }
{
    let mut known = BTreeSet::new(alloc);
    for name in names {
        if was_known(&mut known, name)? {
            return Ok(true);
        }
    }
    Ok(false)
}

/// The names of the columns, for looking up.
fn names_of<'a>(alloc: Global, columns: &'a [Column]) -> Result<BTreeSet<&'a Name>, NoMemory>
    ensures { IfOk result
        (λ known. (n : Bytes)
        → has_name known n ≡ spaces.is_in n (map (λ c. c.name) columns.now)) }
{
    let mut known = BTreeSet::new(alloc);
    for column in columns {
        was_known(&mut known, &column.name)?;
    }
    Ok(known)
}

fn lacks_known<'a>(known: &BTreeSet<&'a Name>, names: &'a [Name]) -> bool
    ensures { result ≡ list_any (λ n. not (has_name known.now n)) names.now }
{
    for name in names {
        if !known.contains(&name) {
            return true;
        }
    }
    false
}

/// Whether a column of one of the names is missing: in O(n log n) of the columns and the names.
pub fn lacks_column<'a>(
    alloc: Global,
    columns: &'a [Column],
    names: &'a [Name],
) -> Result<bool, NoMemory>
    ensures { IfOk result (λ lacks.
        lacks ≡ list_any (λ n. not (spaces.is_in n (map (λ c. c.name) columns.now)))
        names.now) }
{
    let known = names_of(alloc, columns)?;
    Ok(lacks_known(&known, names))
}
