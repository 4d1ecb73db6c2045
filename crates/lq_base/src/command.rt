use crate::text::Text;

/// The point to which a rollback goes back.
#[derive(Drop)]
pub enum Target {
    /// The newest row with this tag stays.
    Tag(Text),
    /// So many rows go.
    Count(u32),
    /// Every row goes that is later, in milliseconds since 1970-01-01 UTC, and those after it.
    Date(i64),
}

/// What a runner is asked to do.
#[derive(Drop)]
pub enum Command {
    Validate,
    Status,
    Update,
    /// The last row gets this tag.
    Tag(Text),
    Rollback(Target),
    Sync,
    Release,
}
