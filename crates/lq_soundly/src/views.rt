ghost use Rattle.std.specs.List.{list_all};
ghost use Rattle.std.specs.Prelude.{◌≡◌, IfOk};
ghost use Rattle.lq_model.specs.Catalogue.{same_names};
ghost use Rattle.lq_model.specs.Sound.{is_view, wanted_names};
ghost use Rattle.lq_sound_table.specs.Pieces.{are_some_of};
ghost use Rattle.lq_soundly.specs.Pieces.{is_view_of};

use crate::foreign::{are_none, same_names};
use crate::tested::{compares_wrongly, is_spelled, names_fit};
use lq_base::{Name, NoMemory};
use lq_model::{Column, Wanted};
use lq_parts::{Parts, View};
use lq_shapes::Columns;
use lq_sound_table::are_some_of;
use std::alloc::Global;

fn lists_same(wanted: &Wanted, columns: &[Name]) -> bool
    ensures { result ≡ same_names (wanted_names wanted.now) columns.now }
{
    match wanted {
        Wanted::Columns(names) => same_names(names.as_slice(), columns),
        _ => are_none(columns),
    }
}

fn are_some(alloc: Global, columns: &[Column], names: &[Name]) -> Result<bool, NoMemory>
    ensures { IfOk result (λ fits. fits ≡ are_some_of columns.now names.now) }
{
    let own = Columns::new(alloc, columns)?;
    let fits = are_some_of(alloc, &own, names)?;
    Ok(fits)
}

fn is_view_of(alloc: Global, columns: &[Column], view: &View) -> Result<bool, NoMemory>
    ensures { IfOk result (λ fits. fits ≡ is_view_of columns.now view.now) }
{
    let lists = are_some(alloc, columns, view.columns())?;
    let query = view.query();
    Ok(
        lists
            && (names_fit(columns, &query.test)
                && (lists_same(&query.wanted, view.columns())
                    && (is_spelled(&query.test) && !compares_wrongly(columns, &query.test)))),
    )
}

fn is_view(alloc: Global, parts: &Parts, view: &View) -> Result<bool, NoMemory>
    ensures { IfOk result (λ fits. fits ≡ is_view parts.now.now view.now) }
{
    match parts.table(&view.query().table) {
        None => Ok(false),
        Some(held) => is_view_of(alloc, held.columns(), view),
    }
}

/// Whether each view is sound.
pub fn are_views(alloc: Global, parts: &Parts, entries: &[(Name, View)]) -> Result<bool, NoMemory>
    ensures { IfOk result (λ fits. fits
        ≡ list_all (λ e. is_view parts.now.now e.1) entries.now) }
{
    for entry in entries {
        if !is_view(alloc, parts, &entry.1)? {
            return Ok(false);
        }
    }
    Ok(true)
}
