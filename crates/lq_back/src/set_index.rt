ghost use Rattle.std.specs.Prelude.{◌≡◌, IfOk, List, OnOk, option_map};
ghost use Rattle.lq_kinds.specs.declared.change_set.ChangeSet.{ChangeSet as OneSet};
ghost use Rattle.lq_track.specs.Log.{identity_of};
ghost use Rattle.lq_back.specs.Reversal.{HasSets, KeepsSet, found_at};

use lq_base::{NoMemory, Tracked};
use lq_kinds::ChangeSet;
use std::alloc::Global;
use std::collections::BTreeMap;

/// An identity as a key: an id, an author and a file, which most of them share.
pub type IdentityKey<'a> = (&'a str, &'a str, &'a str);

/// A changeset with its place in the changelog, from 0.
#[derive(Clone, Copy)]
pub struct Place<'a> {
    pub index: usize,
    pub set: &'a ChangeSet,
}

/// The changesets that are here, for looking up by their identities.
pub type SetIndex<'a> = BTreeMap<IdentityKey<'a>, Place<'a>>;

fn keep<'a>(index: &mut SetIndex<'a>, place: usize, set: &'a ChangeSet) -> Result<(), NoMemory>
    ensures { OnOk result (KeepsSet index.old index.new place set.now) }
{
    if !set.here {
        return Ok(());
    }
    let identity = &set.identity;
    let key = (
        identity.id.as_str(),
        identity.author.as_str(),
        identity.file.as_str(),
    );
    match index.insert(key, Place { index: place, set }) {
        Ok(_) => Ok(()),
        Err(_) => Err(NoMemory),
    }
}

/// Each changeset by its identity, and of several with one identity the first.
#[tactic(auto, using(crate::proofs::Indexed::partly_none, crate::proofs::Indexed::partly_more, crate::proofs::Indexed::has_sets))]
pub fn index_of<'a>(alloc: Global, sets: &'a [ChangeSet]) -> Result<SetIndex<'a>, NoMemory>
    ensures { IfOk result (λ index. HasSets sets.now index) }
{
    let mut index = BTreeMap::new(alloc);
    let mut rest = sets;
    while let Some((set, front)) = rest.split_last() {
        keep(&mut index, front.len(), set)?;
        rest = front;
    }
    Ok(index)
}

/// The changeset whose row it is, with its place.
pub fn place_of<'a>(index: &SetIndex<'a>, row: &'a Tracked) -> Option<Place<'a>>
    ensures { (xs : List OneSet)
        → HasSets xs index.now
        → option_map (λ place. (place.index, place.set.now)) result
        ≡ found_at (identity_of row.now) xs }
{
    match index.get(&(row.id.as_str(), row.author.as_str(), row.filename.as_str())) {
        Some(place) => Some(*place),
        None => None,
    }
}
