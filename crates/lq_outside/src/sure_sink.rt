ghost use Rattle.std.specs.Prelude.{◌≡◌, ◌<◌, ◌++◌, Some, [], length, take, IfOk, OnErr};
ghost use Rattle.std.specs.Option.{option_map};
ghost use Rattle.lq_outside.specs.Forms.{CountsFault};

use crate::{Sink, SinkFailed};
use std::alloc::Global;

/// A sink in memory that takes each piece whole, and fails for want of memory alone.
#[derive(Drop)]
pub struct SureSink {
    bytes: Vec<u8>,
    faults: u64,
}

impl SureSink {
    /// Nothing is written.
    pub fn new(alloc: Global) -> SureSink
        ensures { ⟦<SureSink as Sink>⟧.told result ≡ Some [] }
    {
        SureSink {
            bytes: Vec::new(alloc),
            faults: 0,
        }
    }

    /// What was written.
    pub fn bytes(&self) -> &[u8]
        ensures { ⟦<SureSink as Sink>⟧.told self.now ≡ Some result.now }
    {
        &self.bytes
    }
}

impl Sink for SureSink {
    ghost told = { λ sink. Some sink.bytes.items };

    ghost faults = { λ sink. sink.faults };

    fn write(&mut self, piece: &[u8]) -> Result<usize, SinkFailed>
        ensures told { IfOk result (λ taken.
            ⟦<SureSink as Sink>⟧.told self.new
            ≡ option_map (λ before. before ++ take taken piece.now)
            (⟦<SureSink as Sink>⟧.told self.old)) }
        ensures failed { OnErr result
            (⟦<SureSink as Sink>⟧.told self.new ≡ ⟦<SureSink as Sink>⟧.told self.old) }
        ensures faults { CountsFault result (⟦<SureSink as Sink>⟧.faults self.old)
            (⟦<SureSink as Sink>⟧.faults self.new) }
        ensures whole { IfOk result (λ taken. taken ≡ length piece.now) }
    {
        if self.bytes.extend_from_slice(piece).is_err() {
            self.faults = self.faults.saturating_add(1);
            return Err(SinkFailed);
        }
        Ok(piece.len())
    }
}
