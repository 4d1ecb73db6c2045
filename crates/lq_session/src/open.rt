use lq_base::Lock;
use lq_frames::EncodedEntry;

/// An open transaction.
#[derive(Drop)]
pub struct Open {
    pub session: u32,
    /// The entry that its commit writes: nothing where it has no texts.
    pub entry: Option<EncodedEntry>,
    /// The lock that its session sees: the committed one, as long as it has run nothing.
    pub lock: Option<Lock>,
}
