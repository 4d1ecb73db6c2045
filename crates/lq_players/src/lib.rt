//! Commands that take their steps beside others, over one database.
#![tactic(auto)]

mod any_command;
mod at_end;
mod at_once;
mod drilling;
mod hands;
mod in_tables;
mod laws;
mod rolling_back;
mod row_checks;
mod row_order;
mod syncing;
mod update_checks;
mod updating;

pub use any_command::AnyCommand;
pub use at_once::{AtOnce, OneStep};
pub use drilling::drill_commands;
pub use laws::names_are_apart;
pub use rolling_back::RollingBack;
pub use syncing::Syncing;
pub use updating::Updating;
