ghost use Rattle.std.specs.Prelude.{◌≡◌};
ghost use Rattle.lq_cond.specs.Reading.{connective_named, joined};

use crate::cond::Cond;
use lq_base::Items;

/// What a list of conditions is read as, by the key that holds it.
#[derive(Clone, Copy, PartialEq, Eq)]
pub(crate) enum Connective {
    And,
    Or,
    Not,
}

#[tactic(auto, unfolding(crate::specs::Reading::connective_named))]
pub(crate) fn connective_named(name: &str) -> Option<Connective>
    ensures { result ≡ connective_named name.now }
{
    match name {
        "and" => Some(Connective::And),
        "or" => Some(Connective::Or),
        "not" => Some(Connective::Not),
        _ => None,
    }
}

pub(crate) fn joined(connective: Connective, conds: Items<Cond>) -> Cond
    ensures { result ≡ joined connective conds }
{
    match connective {
        Connective::And => Cond::And(conds),
        Connective::Or => Cond::Or(conds),
        Connective::Not => Cond::Not(conds),
    }
}
