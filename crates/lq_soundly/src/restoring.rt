ghost use Rattle.std.specs.Prelude.{◌≡◌, [], IfOk, MatchOption, false, true};
ghost use Rattle.lq_chain.specs.History.{history};
ghost use Rattle.lq_codec.specs.State.{is_sound};
ghost use Rattle.lq_model.specs.Sound.{IsSound};

use crate::whole::is_sound;
use lq_base::{Dialect, NoMemory};
use lq_filled::{are_in_order, filled};
use lq_parts::Parts;
use lq_state::State;
use std::alloc::Global;

// By the test of soundness.
#[tactic(auto, using(crate::proofs::SoundLemmas::out_of_order, crate::proofs::SoundLemmas::found_unsound, crate::proofs::SoundLemmas::found_sound))]
fn tested(alloc: Global, dialect: Dialect, state: State) -> Result<Option<Parts>, NoMemory>
    ensures { IfOk result (λ found. MatchOption found (is_sound dialect state ≡ false)
        (λ parts. (is_sound dialect state ≡ true) × (parts ≡ history state []))) }
{
    if !are_in_order(&state) {
        return Ok(None);
    }
    let mut parts = filled(alloc, state)?;
    if !is_sound(alloc, dialect, &parts)? {
        return Ok(None);
    }
    parts.forget();
    Ok(Some(parts))
}

/// The objects of a sound state, as the engine keeps them, with nothing to undo. None exactly where
/// the state is no sound catalogue of the dialect.
pub fn restored(alloc: Global, dialect: Dialect, state: State) -> Result<Option<Parts>, NoMemory>
    ensures { IfOk result (λ found. MatchOption found (¬ IsSound dialect state)
        (λ parts. IsSound dialect state × (parts ≡ history state []))) }
{
    let found = tested(alloc, dialect, state)?;
    Ok(found)
}
