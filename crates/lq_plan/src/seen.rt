ghost use Rattle.std.specs.BTreeSet.{contains};
ghost use Rattle.std.specs.Prelude.{◌≡◌, IfOk, OnOk};
ghost use Rattle.lq_plan.specs.Told.{HasAlso};

use crate::row_index::IdentityKey;
use lq_base::{Identity, NoMemory};
use std::collections::BTreeSet;

pub fn key_of<'a>(of: &'a Identity) -> IdentityKey<'a>
    ensures id { result.0.now ≡ of.now.id }
    ensures author { result.1.now ≡ of.now.author }
    ensures file { result.2.now ≡ of.now.file }
{
    (of.id.as_str(), of.author.as_str(), of.file.as_str())
}

/// Whether the set had the key, which it has afterwards.
#[tactic(auto, using(crate::proofs::Behind::has_also))]
pub fn was_seen<K: Ord + Copy>(seen: &mut BTreeSet<K>, key: &K) -> Result<bool, NoMemory>
    ensures before { IfOk result (λ was. was ≡ contains K.cmp seen.old key.now) }
    ensures after { OnOk result (HasAlso K.cmp seen.old seen.new key.now) }
{
    match seen.insert(*key) {
        Ok(true) => Ok(false),
        Ok(false) => Ok(true),
        Err(_) => Err(NoMemory),
    }
}
