ghost use Rattle.std.specs.FinMap.Entries.{is_sorted};
ghost use Rattle.std.specs.Prelude.{◌≡◌};
ghost use Rattle.lq_base.specs.Name.{name_cmp};
ghost use Rattle.lq_codec.specs.State.{are_in_order};
ghost use Rattle.lq_parts.specs.Steps.{tables_of};

use lq_base::Name;
use lq_filled::rise;
use lq_parts::Parts;
use lq_rows::Held;

#[tactic(auto, using(crate::proofs::OrderLemmas::sorted_values))]
fn tables_rise(entries: &[(Name, Held)]) -> bool
    ensures { result ≡ is_sorted name_cmp (tables_of entries.now) }
{
    rise(entries)
}

/// Whether tables, views and sequences stand in the order of their names.
pub fn are_in_order(parts: &Parts) -> bool
    ensures { result ≡ are_in_order parts.now.now }
{
    tables_rise(parts.tables()) && (rise(parts.views()) && rise(parts.sequences()))
}
