ghost use Rattle.std.specs.Prelude.{◌≡◌, [], IfOk, None, Some};
ghost use Rattle.lq_codec.specs.State.{state_of};
ghost use Rattle.lq_engine.specs.State.{state};

use lq_base::Dialect;
use lq_engine::{Engine, PartsFault};
use lq_state::State;
use lq_store::SnapFault;
use std::alloc::Global;

/// An engine of the state whose bytes these are, with nothing to undo. NotSnapshot exactly where they
/// are the bytes of no sound state of the dialect.
#[tactic(auto, using(crate::proofs::ReadLemmas::opened, crate::proofs::ReadLemmas::opened_state, crate::proofs::ReadLemmas::unsound_state, crate::proofs::ReadLemmas::no_state))]
pub fn read(alloc: Global, dialect: Dialect, bytes: &[u8]) -> Result<Engine, SnapFault>
    ensures engine { IfOk result (λ engine. engine ≡ state dialect engine.now []) }
    ensures bytes { IfOk result (λ engine. state_of dialect bytes.now ≡ Some engine.now) }
    ensures fault { result ≡ Err SnapFault.NotSnapshot → state_of dialect bytes.now ≡ None }
{
    let Some(found) = State::of_bytes(alloc, bytes)? else {
        return Err(SnapFault::NotSnapshot);
    };
    match Engine::from_parts(alloc, dialect, found) {
        Ok(engine) => Ok(engine),
        Err(PartsFault::NotSound) => Err(SnapFault::NotSnapshot),
        Err(PartsFault::OutOfMemory) => Err(SnapFault::OutOfMemory),
    }
}
