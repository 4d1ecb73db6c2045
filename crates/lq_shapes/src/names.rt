ghost use Rattle.std.specs.Prelude.{◌≡◌, IfOk, OnOk, map};
ghost use Rattle.lq_model.specs.Catalogue.{is_in, repeats};
ghost use Rattle.lq_shapes.specs.Created.{Grows, ShowsNames, has_name};

use crate::named::push_names;
use lq_base::{Items, Name, NoMemory};
use std::alloc::Global;
use std::collections::BTreeSet;
use std::marker::Model;

/// Names, for looking up. Contracts see them as a list.
#[derive(Drop)]
pub struct Names<'a> {
    names: Items<&'a Name>,
    keys: BTreeSet<&'a str>,
}

impl<'a> Model for Names<'a> {
    ghost use Rattle.std.specs.Prelude.{List, map};
    ghost use Rattle.lq_base.specs.declared.name.Name as name;

    ghost Value = { List name.Name };

    ghost view = { λ it. map (λ n. n.now) it.names };

    ghost use Rattle.lq_shapes.specs.Created.{ShowsNames};

    ghost invariant = { λ it. ShowsNames (map (λ n. n.now) it.names) it.keys };
}

impl<'a> Names<'a> {
    /// These names, in their order: in O(n log n).
    pub fn new(alloc: Global, names: Items<&'a Name>) -> Result<Names<'a>, NoMemory>
        ensures { IfOk result (λ it. it ≡ map (λ n. n.now) names.entry) }
    {
        let keys = seen_names(alloc, names.as_slice())?;
        Ok(Names { names, keys })
    }

    /// The names in their order.
    pub fn as_slice(&self) -> &[&'a Name]
        ensures { map (λ n. n.now) result.now ≡ self.now }
    {
        self.names.as_slice()
    }

    /// Whether the name is one of them.
    pub fn has(&self, name: &Name) -> bool
        ensures { result ≡ is_in name.now self.now }
    {
        self.keys.contains(name.as_key())
    }
}

/// Whether the set had the name, which it has afterwards.
#[tactic(auto, using(crate::proofs::ShownLemmas::grown))]
fn was_seen<'a>(seen: &mut BTreeSet<&'a str>, name: &'a Name) -> Result<bool, NoMemory>
    ensures before { IfOk result (λ was. was ≡ has_name seen.old name.now) }
    ensures after { OnOk result (Grows seen.old seen.new name.now) }
{
    match seen.insert(name.as_key()) {
        Ok(true) => Ok(false),
        Ok(false) => Ok(true),
        Err(_) => Err(NoMemory),
    }
}

#[tactic(auto, using(crate::proofs::ShownLemmas::gathers_none, crate::proofs::ShownLemmas::gathers_more, crate::proofs::ShownLemmas::gathers_all))]
fn seen_names<'a>(alloc: Global, names: &[&'a Name]) -> Result<BTreeSet<&'a str>, NoMemory>
    ensures { IfOk result (λ seen. ShowsNames (map (λ n. n.now) names.now) seen) }
{
    let mut seen = BTreeSet::new(alloc);
    for name in names {
        was_seen(&mut seen, *name)?;
    }
    Ok(seen)
}

/// Whether one of the names stands there twice. The last one comes first: where names rise, each that
/// comes into the set then stands before all others there, where it is found soonest.
pub fn repeats(alloc: Global, names: &[&Name]) -> Result<bool, NoMemory>
    ensures { IfOk result (λ found. found ≡ repeats (map (λ n. n.now) names.now)) }
{
    let mut seen = BTreeSet::new(alloc);
    for at in (0..names.len()).rev() {
        if was_seen(&mut seen, names[at])? {
            return Ok(true);
        }
    }
    Ok(false)
}

/// Whether one of the names of a list stands there twice.
pub fn repeats_in(alloc: Global, names: &[Name]) -> Result<bool, NoMemory>
    ensures { IfOk result (λ found. found ≡ repeats names.now) }
{
    let mut all = Items::new(alloc);
    push_names(&mut all, names)?;
    let found = repeats(alloc, all.as_slice())?;
    Ok(found)
}
