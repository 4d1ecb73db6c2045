use lq_base::{Items, Text};

/// What an entry of a journal says.
#[derive(Drop)]
pub enum Body {
    /// A committed transaction: its statements, of which there is one at least.
    Texts(Items<Text>),
    /// The whole database at that place, as bytes.
    State(Items<u8>),
}

/// An entry of a journal.
#[derive(Drop)]
pub struct Entry {
    /// The place of its first byte in the file.
    pub at: u64,
    pub body: Body,
}
