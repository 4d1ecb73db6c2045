/// What of a catalogue a change was of.
#[derive(Clone, Copy, Drop)]
pub enum Part {
    Tables,
    Views,
    Sequences,
}
