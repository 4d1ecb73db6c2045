use lq_base::Items;
use lq_cli::Line;

/// What the file of a drill gives.
#[derive(Drop)]
pub struct Lines {
    /// What the command lines ask for, 1 to 64 of them.
    pub lines: Items<Line>,
    /// The number of a command line for each step, from 1; at most 1,000,000.
    pub steps: Items<u32>,
}
