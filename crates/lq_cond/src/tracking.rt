ghost use Rattle.std.specs.Prelude.{◌≡◌};
ghost use Rattle.lq_model.specs.NameSpaces.{is_tracking};
ghost use Rattle.lq_cond.specs.Kinds.{is_tracking_key};

use lq_base::Name;

fn is_tracking_key(key: &str) -> bool
    ensures { result ≡ is_tracking_key key.now }
{
    key.eq_ignore_ascii_case("databasechangelog")
        || key.eq_ignore_ascii_case("databasechangeloglock")
}

/// Whether a tracking table has that name, in any case.
#[tactic(auto, using(crate::proofs::TrackingNames::tracking_in_any_case))]
pub(crate) fn is_tracking(name: &Name) -> bool
    ensures { result ≡ is_tracking name.now }
{
    is_tracking_key(name.as_key())
}
