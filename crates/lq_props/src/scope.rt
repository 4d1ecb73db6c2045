use lq_base::Text;

/// Where a property has been defined.
#[derive(Drop)]
pub enum Scope {
    /// On the command line.
    Command,
    /// In the file with this path, and for that file alone.
    File(Text),
    /// In any file, for all files.
    Global,
}
