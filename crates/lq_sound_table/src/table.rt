ghost use Rattle.std.specs.List.{list_all};
ghost use Rattle.std.specs.Option.{option_copied};
ghost use Rattle.std.specs.Prelude.{◌≡◌, ◌++◌, ◌&&◌, IfOk, map};
ghost use Rattle.lq_model.specs.Catalogue.{key_list};
ghost use Rattle.lq_sound_table.specs.Pieces.{are_some_of};
ghost use Rattle.lq_codec.specs.State.{are_lists, has_sound_columns, is_key_well, is_sound_table};

use crate::columns::{are_kinds, are_none, columns_repeat, defaults_fit};
use crate::key::{are_numbered_well, key_is_named, key_is_not_null};
use crate::lists::{foreign_fit, lists_fit};
use crate::own::{own_names_elsewhere, own_names_repeat};
use crate::rows::rows_fit;
use lq_base::{Dialect, NoMemory};
use lq_model::{Column, ForeignKey, Index, Key, Unique};
use lq_rows::Held;
use lq_shapes::Columns;
use std::alloc::Global;

fn has_sound_columns(alloc: Global, held: &Held) -> Result<bool, NoMemory>
    ensures { IfOk result (λ fits. fits ≡ has_sound_columns held.now.now) }
{
    let columns = held.columns();
    let repeat = columns_repeat(alloc, columns)?;
    Ok(
        !are_none(columns)
            && (!repeat
                && (are_kinds(columns)
                    && (rows_fit(columns, held.rows()) && defaults_fit(columns)))),
    )
}

fn lists_in(
    alloc: Global,
    columns: &[Column],
    key: Option<&Key>,
    uniques: &[Unique],
    indexes: &[Index],
    foreign: &[ForeignKey],
) -> Result<bool, NoMemory>
    ensures { IfOk result
        (λ fits. fits ≡ (list_all (are_some_of columns.now) ((map (λ k. k.columns) (key_list
        (option_copied key.entry)) ++ map (λ u. u.columns) uniques.now)
        ++ map (λ i. i.columns) indexes.now)
        && list_all (λ f. are_some_of columns.now f.columns) foreign.now)) }
{
    let own = Columns::new(alloc, columns)?;
    let lists = lists_fit(alloc, &own, key, uniques, indexes)?;
    let foreign = foreign_fit(alloc, &own, foreign)?;
    Ok(lists & foreign)
}

/// Whether the key, the constraints and the indexes name columns as they may.
fn are_lists(alloc: Global, held: &Held) -> Result<bool, NoMemory>
    ensures { IfOk result (λ fits. fits ≡ are_lists held.now.now) }
{
    lists_in(
        alloc,
        held.columns(),
        held.key(),
        held.uniques(),
        held.indexes(),
        held.foreign_keys(),
    )
}

fn is_key_well(alloc: Global, dialect: Dialect, held: &Held) -> Result<bool, NoMemory>
    ensures { IfOk result (λ fits. fits ≡ is_key_well dialect held.now.now) }
{
    let not_null = key_is_not_null(alloc, held.columns(), held.key())?;
    Ok(not_null && key_is_named(dialect, held.key()))
}

/// Whether the table by itself is sound.
pub fn is_sound_table(alloc: Global, dialect: Dialect, held: &Held) -> Result<bool, NoMemory>
    ensures { IfOk result (λ fits. fits ≡ is_sound_table dialect held.now.now) }
{
    let columns = has_sound_columns(alloc, held)?;
    let lists = are_lists(alloc, held)?;
    let key = is_key_well(alloc, dialect, held)?;
    let repeat = own_names_repeat(alloc, dialect, held)?;
    let elsewhere = own_names_elsewhere(alloc, held)?;
    let numbered = are_numbered_well(held.key(), held.columns());
    Ok(columns && (lists && (key && (numbered && (!repeat && !elsewhere)))))
}
