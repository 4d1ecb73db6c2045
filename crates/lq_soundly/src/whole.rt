ghost use Rattle.std.specs.Prelude.{◌≡◌, IfOk};
ghost use Rattle.lq_model.specs.Plan as spec;
ghost use Rattle.lq_model.specs.Sound.{is_unlike};
ghost use Rattle.lq_codec.specs.State.{has_sound_objects, has_sound_rows, is_sound};

use crate::apart::{are_apart, may_name};
use crate::catalogue::{
    are_loose, are_overfull, are_sound_tables, are_unlike, have_null, have_twins, may_have,
    one_stands_still,
};
use crate::order::are_in_order;
use crate::views::are_views;
use lq_base::{Dialect, NoMemory};
use lq_orphans::has_orphans;
use lq_parts::Parts;
use std::alloc::Global;

fn has_sound_objects(alloc: Global, dialect: Dialect, parts: &Parts) -> Result<bool, NoMemory>
    ensures { IfOk result (λ fits. fits ≡ has_sound_objects dialect parts.now.now) }
{
    let tables = are_sound_tables(alloc, dialect, parts.tables())?;
    let views = are_views(alloc, parts, parts.views())?;
    let apart = are_apart(alloc, dialect, parts)?;
    let named = may_name(alloc, dialect, parts)?;
    let still = one_stands_still(parts.sequences());
    let may = may_have(dialect, parts.sequences());
    Ok(tables & (views & (apart & (named & (!still & may)))))
}

fn has_null(parts: &Parts) -> bool
    ensures { result ≡ spec.has_null parts.now.now }
{
    have_null(parts.tables())
}

fn has_twins(alloc: Global, parts: &Parts) -> Result<bool, NoMemory>
    ensures { IfOk result (λ found. found ≡ spec.has_twins parts.now.now) }
{
    have_twins(alloc, parts.tables())
}

fn is_loose(parts: &Parts) -> bool
    ensures { result ≡ spec.is_loose parts.now.now }
{
    are_loose(parts, parts.tables())
}

fn is_unlike(alloc: Global, parts: &Parts) -> Result<bool, NoMemory>
    ensures { IfOk result (λ found. found ≡ is_unlike parts.now.now) }
{
    are_unlike(alloc, parts, parts.tables())
}

fn lacks_parents(alloc: Global, parts: &Parts) -> Result<bool, NoMemory>
    ensures { IfOk result (λ found. found ≡ spec.has_orphans parts.now.now) }
{
    has_orphans(alloc, parts, parts.tables())
}

fn is_overfull(parts: &Parts) -> bool
    ensures { result ≡ spec.is_overfull parts.now.now }
{
    are_overfull(parts.tables())
}

fn has_sound_rows(alloc: Global, parts: &Parts) -> Result<bool, NoMemory>
    ensures { IfOk result (λ fits. fits ≡ has_sound_rows parts.now.now) }
{
    let twins = has_twins(alloc, parts)?;
    let unlike = is_unlike(alloc, parts)?;
    let orphans = lacks_parents(alloc, parts)?;
    let loose = is_loose(parts);
    let overfull = is_overfull(parts);
    Ok(!has_null(parts) & (!twins & (!loose & (!unlike & (!orphans & !overfull)))))
}

/// Whether the catalogue is sound: in O(n log n) in its names, and in its rows for each key, unique
/// constraint, index and foreign key.
pub fn is_sound(alloc: Global, dialect: Dialect, parts: &Parts) -> Result<bool, NoMemory>
    ensures { IfOk result (λ fits. fits ≡ is_sound dialect parts.now.now) }
{
    let order = are_in_order(parts);
    let objects = has_sound_objects(alloc, dialect, parts)?;
    let rows = has_sound_rows(alloc, parts)?;
    Ok(order & (objects & rows))
}
