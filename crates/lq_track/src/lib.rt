//! The two tables in which an update keeps what it ran, as Liquibase has them (its documentation,
//! "DATABASECHANGELOG table" and "DATABASECHANGELOGLOCK table"): the statements that make them,
//! write their rows and take and free the lock, and what a catalogue's tables hold, read.
#![tactic(auto)]

mod fault;
mod literals;
mod lock_column;
mod lock_reading;
mod lock_table;
mod log_column;
mod log_reading;
mod log_table;
mod name;
mod row;
mod row_reading;
mod run_order;
mod stored;
mod tables;

pub use fault::TrackFault;
pub use lock_column::LockColumn;
pub use lock_reading::read_lock;
pub use lock_table::{free_lock, mark_lock, take_lock};
pub use log_column::LogColumn;
pub use log_reading::{read_rows, read_rows_of};
pub use log_table::{again_row, clear_sums, delete_row, fill_sum, insert_row, set_tag};
pub use row::{Ran, row_of};
pub use tables::{make_lock, make_lock_row, make_log, make_tables};
