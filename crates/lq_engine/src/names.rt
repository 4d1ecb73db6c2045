ghost use Rattle.std.specs.List.Sorted.{IsStrictlySortedBy};
ghost use Rattle.std.specs.Map.{keys_of};
ghost use Rattle.std.specs.Prelude.{◌≡◌, IfOk};
ghost use Rattle.lq_base.specs.Name.{name_cmp};
ghost use Rattle.lq_engine.specs.State.{names_of};

use crate::engine::Engine;
use lq_base::{Duplicate, Items, Name, NoMemory};
use lq_parts::Parts;
use std::alloc::Global;

/// A sort of objects.
#[derive(Clone, Copy)]
pub enum Sort {
    Table,
    View,
    Sequence,
}

#[tactic(auto, using(crate::proofs::NameLemmas::one_name, crate::proofs::NameLemmas::all_names))]
fn names_in<T>(alloc: Global, entries: &[(Name, T)]) -> Result<Items<Name>, NoMemory>
    ensures { IfOk result (λ names. names ≡ keys_of entries.now) }
{
    let mut names = Items::new(alloc);
    let mut rest = entries;
    while let Some((entry, after)) = rest.split_first() {
        let copy = entry.0.duplicate(alloc)?;
        names.push(copy)?;
        rest = after;
    }
    Ok(names)
}

fn table_names(alloc: Global, parts: &Parts) -> Result<Items<Name>, NoMemory>
    ensures { IfOk result (λ names. names ≡ keys_of parts.now.now.tables) }
{
    let names = names_in(alloc, parts.tables())?;
    Ok(names)
}

fn view_names(alloc: Global, parts: &Parts) -> Result<Items<Name>, NoMemory>
    ensures { IfOk result (λ names. names ≡ keys_of parts.now.now.views) }
{
    let names = names_in(alloc, parts.views())?;
    Ok(names)
}

fn sequence_names(alloc: Global, parts: &Parts) -> Result<Items<Name>, NoMemory>
    ensures { IfOk result (λ names. names ≡ keys_of parts.now.now.sequences) }
{
    let names = names_in(alloc, parts.sequences())?;
    Ok(names)
}

fn names_of(alloc: Global, parts: &Parts, sort: Sort) -> Result<Items<Name>, NoMemory>
    ensures { IfOk result (λ names. names ≡ names_of sort parts.now.now) }
{
    match sort {
        Sort::Table => table_names(alloc, parts),
        Sort::View => view_names(alloc, parts),
        Sort::Sequence => sequence_names(alloc, parts),
    }
}

impl Engine {
    /// The names of the tables, of the views or of the sequences, in the order of their bytes.
    pub fn names(&self, alloc: Global, sort: Sort) -> Result<Items<Name>, NoMemory>
        ensures names { IfOk result (λ names. names ≡ names_of sort self.now.now) }
        ensures rise { IfOk result (λ names. IsStrictlySortedBy name_cmp names) }
    {
        self.sound();
        let names = names_of(alloc, self.parts(), sort)?;
        Ok(names)
    }
}
