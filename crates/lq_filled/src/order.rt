ghost use Rattle.std.specs.FinMap.Entries.{is_sorted};
ghost use Rattle.std.specs.Prelude.{◌≡◌};
ghost use Rattle.lq_base.specs.Name.{name_cmp};
ghost use Rattle.lq_filled.specs.With.{begins_above};

use lq_base::Name;

/// Whether the first entry, if there is one, stands above the name.
fn begins_above<T>(name: &Name, entries: &[(Name, T)]) -> bool
    ensures { result ≡ begins_above name.now entries.now }
{
    match entries {
        [] => true,
        [entry, ..] => name.cmp(&entry.0).is_lt(),
    }
}

/// Whether the names rise: by a look at neighbours.
#[tactic(auto, using(crate::proofs::OrderLemmas::rises_on, crate::proofs::OrderLemmas::falls_here, crate::proofs::OrderLemmas::none_fall))]
pub fn rise<T>(entries: &[(Name, T)]) -> bool
    ensures { result ≡ is_sorted name_cmp entries.now }
{
    let mut rest = entries;
    while let Some((entry, after)) = rest.split_first() {
        if !begins_above(&entry.0, after) {
            return false;
        }
        rest = after;
    }
    true
}
