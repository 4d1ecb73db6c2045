ghost use Rattle.std.specs.Prelude.{◌≡◌, [], IfOk, OnOk, Option, map};
ghost use Rattle.lq_base.specs.declared.kind.Kind.{Kind};
ghost use Rattle.lq_base.specs.declared.name.Name.{Name};
ghost use Rattle.lq_model.specs.Kinds.{kind_of, same_kinds};
ghost use Rattle.lq_model.specs.Catalogue.{is_in};
ghost use Rattle.lq_model.specs.Views.{lacks_column};
ghost use Rattle.lq_shapes.specs.Created.{KeepsFirst, ShowsKinds};

use crate::kinds::same_kind;
use lq_base::{Kind, Name, NoMemory};
use lq_model::Column;
use std::alloc::Global;
use std::collections::BTreeMap;
use std::marker::Model;

/// The columns of a table, for looking up their kinds. Contracts see the columns.
#[derive(Drop)]
pub struct Columns<'a> {
    columns: &'a [Column],
    kinds: BTreeMap<&'a str, Kind>,
}

impl<'a> Model for Columns<'a> {
    ghost use Rattle.std.specs.Prelude.{List};
    ghost use Rattle.lq_model.specs.declared.column.Column as column;

    ghost Value = { List column.Column };

    ghost view = { λ it. it.columns.now };

    ghost use Rattle.lq_shapes.specs.Created.{ShowsKinds};

    ghost invariant = { λ it. ShowsKinds it.columns.now it.kinds };
}

impl<'a> Columns<'a> {
    /// These columns, in their order: in O(n log n).
    pub fn new(alloc: Global, columns: &'a [Column]) -> Result<Columns<'a>, NoMemory>
        ensures { IfOk result (λ it. it ≡ columns.now) }
    {
        let kinds = kinds_of(alloc, columns)?;
        Ok(Columns { columns, kinds })
    }

    /// The kind of the column of the name.
    pub fn kind(&self, name: &Name) -> Option<Kind>
        ensures { result ≡ kind_of name.now self.now }
    {
        self.kinds.get(name.as_key()).copied()
    }

    /// Whether one of them has the name.
    #[tactic(auto, using(crate::proofs::KindLemmas::has_kind))]
    pub fn has(&self, name: &Name) -> bool
        ensures { result ≡ is_in name.now (map (λ c. c.name) self.now) }
    {
        self.kind(name).is_some()
    }

    /// Whether a column of one of the names is missing.
    pub fn lack(&self, names: &[Name]) -> bool
        ensures { result ≡ lacks_column self.now names.now }
    {
        names.iter().any(|name| !self.has(name))
    }
}

fn are_none(names: &[Name]) -> bool
    ensures { (kinds : Name → Option Kind) → result ≡ same_kinds [] (map kinds names.now) }
{
    match names {
        [] => true,
        [_first, _rest @ ..] => false,
    }
}

/// Whether the columns of these names are as many as others of another table, and of the same kinds.
pub fn kinds_agree(
    own: &Columns<'_>,
    names: &[Name],
    others: &Columns<'_>,
    targets: &[Name],
) -> bool
    ensures { result
        ≡ same_kinds (map (λ n. kind_of n own.now) names.now)
        (map (λ n. kind_of n others.now) targets.now) }
{
    let mut left = targets;
    for name in names {
        let Some((target, after)) = left.split_first() else {
            return false;
        };
        if !same_kind(own.kind(name), others.kind(target)) {
            return false;
        }
        left = after;
    }
    are_none(left)
}

/// The same of columns of one table.
pub fn own_kinds_agree(own: &Columns<'_>, names: &[Name], targets: &[Name]) -> bool
    ensures { result
        ≡ same_kinds (map (λ n. kind_of n own.now) names.now)
        (map (λ n. kind_of n own.now) targets.now) }
{
    let mut left = targets;
    for name in names {
        let Some((target, after)) = left.split_first() else {
            return false;
        };
        if !same_kind(own.kind(name), own.kind(target)) {
            return false;
        }
        left = after;
    }
    are_none(left)
}

#[tactic(auto, using(crate::proofs::KindLemmas::kinds_none, crate::proofs::KindLemmas::kinds_more, crate::proofs::KindLemmas::kinds_all))]
fn kinds_of<'a>(alloc: Global, columns: &'a [Column]) -> Result<BTreeMap<&'a str, Kind>, NoMemory>
    ensures { IfOk result (λ kinds. ShowsKinds columns.now kinds) }
{
    let mut kinds = BTreeMap::new(alloc);
    for column in columns {
        put_kind(&mut kinds, column)?;
    }
    Ok(kinds)
}

/// Puts the column's kind at its name, unless there is one.
fn put_kind<'a>(kinds: &mut BTreeMap<&'a str, Kind>, column: &'a Column) -> Result<(), NoMemory>
    ensures { OnOk result (KeepsFirst kinds.old kinds.new column.now) }
{
    let key = column.name.as_key();
    if kinds.contains_key(key) {
        return Ok(());
    }
    match kinds.insert(key, column.kind) {
        Ok(_) => Ok(()),
        Err(_) => Err(NoMemory),
    }
}
