use lq_base::NoMemory;
use lq_coded::Coded;
use std::alloc::Global;
use std::marker::Model;

/// A sequence: where it starts, and by how much each number is above the one before.
#[derive(Drop)]
pub struct Sequence {
    pub start: i128,
    pub step: i128,
}

impl Model for Sequence {
    ghost use Rattle.lq_model.specs.Catalogue as catalogue;

    ghost Value = { catalogue.Sequence };

    ghost view = { λ s. record { start = s.start; step = s.step } };
}

#[tactic(auto, unfolding(lq_codec::specs::Tables::sequence_codec))]
impl Coded for Sequence {
    ghost use Rattle.lq_codec.specs.Tables.{sequence_codec};
    ghost use Rattle.lq_codec.specs.State.{free};

    ghost codec = { sequence_codec };

    ghost within = { free };

    fn read(alloc: Global, bytes: &[u8]) -> Result<Option<(Sequence, &[u8])>, NoMemory> {
        match <(i128, i128)>::read(alloc, bytes)? {
            Some(((start, step), rest)) => Ok(Some((Sequence { start, step }, rest))),
            None => Ok(None),
        }
    }

    fn write(&self, to: &mut Vec<u8>) -> Result<(), NoMemory> {
        self.start.write(to)?;
        self.step.write(to)?;
        Ok(())
    }
}
