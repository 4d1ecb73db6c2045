//! The law that statements keep a catalogue sound.
ghost use Rattle.lq_model.specs.Step.{StatementKeepsSound};

/// The catalogue after any statement of the dialect that is accepted on a sound catalogue is sound.
pub fn statement_keeps_sound()
    ensures { StatementKeepsSound }
{}
