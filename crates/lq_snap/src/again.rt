ghost use Rattle.std.specs.Prelude.{◌≡◌, IfOk};
ghost use Rattle.lq_model.specs.Sound.{IsSound};
ghost use Rattle.lq_store.specs.Executor.{forgotten};

use lq_base::Dialect;
use lq_store::{SnapFault, States};
use std::alloc::Global;

/// The database of an engine, written and read again: it is the same one, with nothing to undo, and
/// only memory may be wanting.
#[tactic(auto, using(crate::proofs::ReadLemmas::same_again, crate::proofs::ReadLemmas::never_refused))]
pub fn reopened<S: States>(
    states: &S,
    alloc: Global,
    dialect: Dialect,
    engine: &S::Engine,
) -> Result<S::Engine, SnapFault>
    requires dialect { (S.Engine.held engine.now).dialect ≡ dialect }
    requires sound { IsSound dialect (S.Engine.held engine.now).now }
    ensures same { IfOk result
        (λ again. S.Engine.held again ≡ forgotten (S.Engine.held engine.now)) }
    ensures read { ¬ (result ≡ Err SnapFault.NotSnapshot) }
{
    let bytes = states.write(alloc, engine)?;
    match states.read(alloc, dialect, bytes.as_slice()) {
        Ok(again) => Ok(again),
        Err(fault) => Err(fault),
    }
}
