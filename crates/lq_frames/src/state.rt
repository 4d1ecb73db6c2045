ghost use Rattle.std.specs.Prelude.{◌≡◌, IfOk};
ghost use Rattle.lq_frames.specs.declared.entry.Body.TheVariants.{State};

use crate::encoded::number;
use crate::written::Encoded;
use lq_base::NoMemory;
use std::alloc::Global;
use std::marker::Model;

/// An entry of a state that is ready to be written: its bytes, with the closed gate that is written
/// behind it. Contracts see it as the bytes of the state.
#[derive(Drop)]
pub struct EncodedState {
    bytes: Vec<u8>,
}

impl Model for EncodedState {
    ghost use Rattle.std.specs.Prelude.{◌≡◌, List, ℕ};
    ghost use Rattle.lq_frames.specs.Body.{entry_of, state_in};
    ghost use Rattle.lq_frames.specs.declared.entry.Body.TheVariants.{State};

    ghost Value = { List ℕ };

    ghost view = { λ e. state_in e.bytes.items };

    ghost invariant = { λ e. e.bytes.items ≡ entry_of (State (state_in e.bytes.items)) };
}

impl EncodedState {
    /// The entry of the state that has these bytes.
    pub fn new(alloc: Global, state: &[u8]) -> Result<EncodedState, NoMemory>
        ensures { IfOk result (λ entry. entry ≡ state.now) }
    {
        let mut bytes = Vec::new(alloc);
        bytes.extend_from_slice(&number(1 + state.len()))?;
        bytes.push(b'S')?;
        bytes.extend_from_slice(state)?;
        bytes.push(0)?;
        Ok(EncodedState { bytes })
    }
}

impl Encoded for EncodedState {
    ghost says = { λ state. State state };

    fn bytes(&self) -> &[u8] {
        &self.bytes
    }

    fn size(&self) -> u64 {
        self.bytes.len() as u64
    }
}
