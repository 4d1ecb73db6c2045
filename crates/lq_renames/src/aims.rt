ghost use Rattle.std.specs.List.Sorted.{IsStrictlySortedBy};
ghost use Rattle.std.specs.Map.{keys_of};
ghost use Rattle.std.specs.Prelude.{◌≡◌, ◌<◌, IfOk, OnOk, length, map};
ghost use Rattle.lq_base.specs.Name.{name_cmp};
ghost use Rattle.lq_model.specs.Catalogue.{renamed};
ghost use Rattle.lq_model.specs.Tables.{retarget, retargeted};
ghost use Rattle.lq_parts.specs.Steps.{edit_at};
ghost use Rattle.lq_rows.specs.Stored.{Continues, with_shape};

use lq_base::{Duplicate, Items, Name, NoMemory, both};
use lq_model::ForeignKey;
use lq_parts::Parts;
use lq_rows::{Held, Shape};
use lq_shapes::targets_table;
use std::alloc::Global;

/// A copy of the name, or the new one where it is the old one.
fn renamed(alloc: Global, from: &Name, to: &Name, name: &Name) -> Result<Name, NoMemory>
    ensures { IfOk result (λ new. new ≡ renamed from.now to.now name.now) }
{
    if *from == *name {
        return to.duplicate(alloc);
    }
    name.duplicate(alloc)
}

fn retarget(alloc: Global, from: &Name, to: &Name, key: &ForeignKey) -> Result<ForeignKey, NoMemory>
    ensures { IfOk result (λ new. new ≡ retarget from.now to.now key.now) }
{
    let (table, copy) = both(renamed(alloc, from, to, &key.table), key.duplicate(alloc))?;
    let mut new = copy;
    new.table = table;
    Ok(new)
}

fn retarget_each(
    alloc: Global,
    from: &Name,
    to: &Name,
    keys: &[ForeignKey],
) -> Result<Items<ForeignKey>, NoMemory>
    ensures { IfOk result (λ all. all ≡ map (retarget from.now to.now) keys.now) }
{
    let mut all = Items::new(alloc);
    for key in keys {
        all.push(retarget(alloc, from, to, key)?)?;
    }
    Ok(all)
}

/// What the table is but for its rows when a table that it may aim at has another name.
fn retargeted(alloc: Global, from: &Name, to: &Name, held: &Held) -> Result<Shape, NoMemory>
    ensures { IfOk result
        (λ shape. with_shape shape held.now.now ≡ retargeted from.now to.now held.now.now) }
{
    let (foreign, copy) = both(
        retarget_each(alloc, from, to, held.foreign_keys()),
        held.shape().duplicate(alloc),
    )?;
    let mut shape = copy;
    shape.foreign = foreign;
    Ok(shape)
}

/// Gives the foreign keys of the table at a place the new name of the table that they aim at.
fn retarget_at(
    parts: &mut Parts,
    alloc: Global,
    at: usize,
    from: &Name,
    to: &Name,
) -> Result<(), NoMemory>
    requires within { at < length parts.old.now.tables }
    requires ordered { IsStrictlySortedBy name_cmp (keys_of parts.old.now.tables) }
    ensures ok { OnOk result
        (parts.new.now
        ≡ record parts.old.now {
          tables = edit_at at (λ e. (e.0, retargeted from.now to.now e.1))
              parts.old.now.tables;
        }) }
    ensures goes { Continues parts.old parts.new }
{
    let entry = &parts.tables()[at];
    if !targets_table(from, &entry.1) {
        return Ok(());
    }
    let shape = retargeted(alloc, from, to, &entry.1)?;
    let name = entry.0.duplicate(alloc)?;
    parts.shape_table(&name, shape)?;
    Ok(())
}

/// Gives the foreign keys of all tables the new name of the table that they aim at.
pub fn retarget_all(
    parts: &mut Parts,
    alloc: Global,
    from: &Name,
    to: &Name,
) -> Result<(), NoMemory>
    requires { IsStrictlySortedBy name_cmp (keys_of parts.old.now.tables) }
    ensures ok { OnOk result
        (parts.new.now
        ≡ record parts.old.now {
          tables = map (λ e. (e.0, retargeted from.now to.now e.1))
              parts.old.now.tables;
        }) }
    ensures goes { Continues parts.old parts.new }
{
    for at in 0..parts.tables().len() {
        retarget_at(parts, alloc, at, from, to)?;
    }
    Ok(())
}
