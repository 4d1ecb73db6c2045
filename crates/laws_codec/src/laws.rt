//! What holds of the bytes of databases. The functions are empty: their contracts are the laws.

ghost use Rattle.laws_codec.specs.Written.{BytesAreRead, BytesAreWritten, FrontsAreRead, NothingIsZeros, SoundnessIsTested, StatesAreRead, StatesAreSound};

/// The bytes of a catalogue are read as that catalogue. So no two catalogues have the same bytes.
pub fn bytes_are_read()
    ensures { BytesAreRead }
{}

/// Bytes that are read as a catalogue are the bytes of it, and it can be written. So what is no
/// catalogue's bytes is not read.
pub fn bytes_are_written()
    ensures { BytesAreWritten }
{}

/// Both hold with anything that follows the bytes.
pub fn fronts_are_read()
    ensures { FrontsAreRead }
{}

/// The catalogue without objects has 48 bytes of 0, and 47 of them are no catalogue's.
pub fn nothing_is_zeros()
    ensures { NothingIsZeros }
{}

/// The test of soundness is true exactly of sound catalogues.
pub fn soundness_is_tested()
    ensures { SoundnessIsTested }
{}

/// The bytes of a sound catalogue are read as the state that it is.
pub fn states_are_read()
    ensures { StatesAreRead }
{}

/// A state that is read is a sound catalogue, and the bytes are those of it.
pub fn states_are_sound()
    ensures { StatesAreSound }
{}
