ghost use Rattle.std.specs.List.{list_all};
ghost use Rattle.std.specs.Prelude.{◌≡◌, ◌++◌, IfOk, OnOk, map};
ghost use Rattle.lq_base.specs.Kind.{is_kind};
ghost use Rattle.lq_model.specs.Catalogue.{is_empty, repeats};
ghost use Rattle.lq_model.specs.Sound.{default_fits};
ghost use Rattle.lq_sound_table.specs.Pieces.{names_of};

use lq_base::{Items, Name, NoMemory};
use lq_model::Column;
use lq_shapes::repeats;
use std::alloc::Global;

/// Whether each column's kind is one that can be named.
pub fn are_kinds(columns: &[Column]) -> bool
    ensures { result ≡ list_all (λ c. is_kind c.kind) columns.now }
{
    columns.iter().all(|column| column.kind.is_kind())
}

#[tactic(auto, unfolding(lq_base::specs::Value::is_value_of))]
fn default_fits(column: &Column) -> bool
    ensures { result ≡ default_fits column.now }
{
    match &column.default {
        None => true,
        Some(value) => value.is_of(column.kind),
    }
}

/// Whether each column's default is of its kind.
pub fn defaults_fit(columns: &[Column]) -> bool
    ensures { result ≡ list_all default_fits columns.now }
{
    columns.iter().all(|column| default_fits(column))
}

/// Whether there is no column.
pub fn are_none(columns: &[Column]) -> bool
    ensures { result ≡ is_empty columns.now }
{
    match columns {
        [] => true,
        [_first, _rest @ ..] => false,
    }
}

/// Adds the names of columns.
pub fn push_columns<'a>(to: &mut Items<&'a Name>, columns: &'a [Column]) -> Result<(), NoMemory>
    ensures { OnOk result (map
        (λ n. n.now) to.new ≡ map (λ n. n.now) to.old ++ names_of columns.now) }
{
    let mut rest = columns;
    while let [column, after @ ..] = rest {
        to.push(&column.name)?;
        rest = after;
    }
    Ok(())
}

/// Whether two columns have one name.
pub fn columns_repeat(alloc: Global, columns: &[Column]) -> Result<bool, NoMemory>
    ensures { IfOk result (λ found. found ≡ repeats (names_of columns.now)) }
{
    let mut names = Items::new(alloc);
    push_columns(&mut names, columns)?;
    let found = repeats(alloc, names.as_slice())?;
    Ok(found)
}
