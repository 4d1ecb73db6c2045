use lq_base::Text;

/// Who runs a command, and the clock's reading that all its rows carry.
#[derive(Drop)]
pub struct Stamp {
    pub who: Text,
    /// In milliseconds since 1970-01-01 UTC.
    pub reading: u64,
}
