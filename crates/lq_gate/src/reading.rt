ghost use Rattle.std.specs.Prelude.{◌≡◌, ◌<◌, ◌∷◌, length, MatchOption};
ghost use Rattle.lq_gate.specs.Gate.{IsEnd};

/// What stands behind the gate, where it is open.
#[tactic(auto, using(crate::proofs::Gates::gate_shut))]
pub fn behind_gate(bytes: &[u8]) -> Option<&[u8]>
    requires { 0 < length bytes.now }
    ensures { MatchOption result (IsEnd bytes.now) (λ behind. bytes.now ≡ 1 ∷ behind.now) }
{
    match bytes {
        [1, behind @ ..] => Some(behind),
        _ => None,
    }
}
