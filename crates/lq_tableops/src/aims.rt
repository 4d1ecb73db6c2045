ghost use Rattle.std.specs.List.{list_any};
ghost use Rattle.std.specs.Option.{option_copied};
ghost use Rattle.std.specs.Prelude.{◌≡◌, ◌++◌, [], IfOk, false, is_none, map, not};
ghost use Rattle.lq_model.specs.Catalogue as catalogue;
ghost use Rattle.lq_model.specs.Catalogue.{table_of, the_table, same_names, key_list};
ghost use Rattle.lq_shapes.specs.Created.{made};
ghost use Rattle.lq_tableops.specs.Aimed.{AimsAt, AreAims, IsAim};

use lq_base::{Name, NoMemory};
use lq_model::{ForeignKey, Key, Unique};
use lq_parts::Parts;
use lq_shapes::{Columns, NewTable, kinds_agree, own_kinds_agree};
use std::alloc::Global;

/// What is against a foreign key of a new table.
#[derive(Clone, Copy, Drop)]
pub struct Aim {
    /// Its table, or a column that it targets, is not there.
    pub missing: bool,
    /// Its targets are neither the key nor a unique constraint of their table.
    pub loose: bool,
    /// Its columns and targets differ in number or kinds.
    pub differ: bool,
}

/// Whether two lists have the same names in the same order.
fn same_names(a: &[Name], b: &[Name]) -> bool
    ensures { result ≡ same_names a.now b.now }
{
    let mut left = b;
    for x in a {
        let Some((y, after)) = left.split_first() else {
            return false;
        };
        if *x != *y {
            return false;
        }
        left = after;
    }
    are_none(left)
}

fn are_none(names: &[Name]) -> bool
    ensures { result ≡ same_names [] names.now }
{
    match names {
        [] => true,
        [_first, _rest @ ..] => false,
    }
}

fn key_is(names: &[Name], key: Option<&Key>) -> bool
    ensures { result
        ≡ list_any (λ k. same_names names.now k.columns) (key_list (option_copied key.entry)) }
{
    match key {
        None => false,
        Some(key) => same_names(names, key.columns.as_slice()),
    }
}

fn unique_is(names: &[Name], uniques: &[Unique]) -> bool
    ensures { result ≡ list_any (λ u. same_names names.now u.columns) uniques.now }
{
    uniques
        .iter()
        .any(|unique| same_names(names, unique.columns.as_slice()))
}

/// Whether the names are, in order, neither the key nor a unique constraint.
fn are_loose(names: &[Name], key: Option<&Key>, uniques: &[Unique]) -> bool
    ensures { result
        ≡ not
        (list_any (same_names names.now)
        (map (λ k. k.columns) (key_list (option_copied key.entry))
        ++ map (λ u. u.columns) uniques.now)) }
{
    !(key_is(names, key) | unique_is(names, uniques))
}

/// What is against a foreign key that targets its own table.
fn aim_within(own: &Columns<'_>, new: &NewTable<'_>, key: &ForeignKey) -> Aim
    ensures { AimsAt false (made own.now new.now.key.now new.now.uniques.now new.now.foreign.now)
        (made own.now new.now.key.now new.now.uniques.now new.now.foreign.now) key.now result }
{
    let targets = key.targets.as_slice();
    Aim {
        missing: own.lack(targets),
        loose: are_loose(targets, new.key.as_ref(), new.uniques),
        differ: !own_kinds_agree(own, key.columns.as_slice(), targets),
    }
}

/// What is against a foreign key that targets another table, which may not be there.
fn aim_beside(
    parts: &Parts,
    alloc: Global,
    own: &Columns<'_>,
    key: &ForeignKey,
) -> Result<Aim, NoMemory>
    ensures { (it : catalogue.Table)
        → it.columns ≡ own.now
        → IfOk result (λ aim.
        AimsAt (is_none (table_of parts.now.now key.now.table)) it
        (the_table parts.now.now key.now.table) key.now aim) }
{
    let targets = key.targets.as_slice();
    match parts.table(&key.table) {
        None => {
            let others = Columns::new(alloc, &[])?;
            Ok(Aim {
                missing: true,
                loose: are_loose(targets, None, &[]),
                differ: !kinds_agree(own, key.columns.as_slice(), &others, targets),
            })
        }
        Some(held) => {
            let others = Columns::new(alloc, held.columns())?;
            Ok(Aim {
                missing: others.lack(targets),
                loose: are_loose(targets, held.key(), held.uniques()),
                differ: !kinds_agree(own, key.columns.as_slice(), &others, targets),
            })
        }
    }
}

fn aimed(
    parts: &Parts,
    alloc: Global,
    own: &Columns<'_>,
    new: &NewTable<'_>,
    key: &ForeignKey,
) -> Result<Aim, NoMemory>
    ensures { IfOk result (λ aim.
        IsAim new.now.name.now
        (made own.now new.now.key.now new.now.uniques.now new.now.foreign.now) parts.now.now key.now
        aim) }
{
    if *new.name == key.table {
        return Ok(aim_within(own, new, key));
    }
    let aim = aim_beside(parts, alloc, own, key)?;
    Ok(aim)
}

/// What is against one of the foreign keys of a new table.
pub fn aims(
    parts: &Parts,
    alloc: Global,
    own: &Columns<'_>,
    new: &NewTable<'_>,
) -> Result<Aim, NoMemory>
    ensures { IfOk result (λ all.
        AreAims new.now.name.now
        (made own.now new.now.key.now new.now.uniques.now new.now.foreign.now) parts.now.now
        new.now.foreign.now all) }
{
    let mut all = Aim {
        missing: false,
        loose: false,
        differ: false,
    };
    for key in new.foreign {
        let aim = aimed(parts, alloc, own, new, key)?;
        all = Aim {
            missing: all.missing | aim.missing,
            loose: all.loose | aim.loose,
            differ: all.differ | aim.differ,
        };
    }
    Ok(all)
}
