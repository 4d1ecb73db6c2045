//! Trees: the form in which the readers of files answer, JSON as such a tree, and how the keys of
//! its maps are read.
#![tactic(auto)]

mod blanks;
mod columns;
mod found;
mod given;
mod items;
mod keys;
mod look;
mod names;
mod node;
mod reader;
mod reading;
mod values;

pub use blanks::{comma_parts, without_blanks};
pub use columns::required_columns;
pub use found::{bad, bad_key, missing, not_for, placed, placed_list, unknown};
pub use given::Given;
pub use items::{each_item, optional_items, required_items};
pub use keys::{catalogue, in_schema, known, optional, public, required, required_unless, schema};
pub use node::{Node, TreeFault};
pub use reader::{Reader, optional_by, required_by};
pub use reading::read_json;
pub use values::{GivenValue, family};
