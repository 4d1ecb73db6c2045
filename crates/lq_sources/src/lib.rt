//! The files of a changelog: their paths, their includes and their properties, whatever else stands
//! in them.
#![tactic(auto)]

mod blame;
mod fault;
mod gather;
mod gathering;
mod item;
mod laws;
mod listing;
mod opening;
mod reading;
mod taking;
mod values;
mod walking;

pub use fault::{Lack, LoadFault, What};
pub use gather::Gather;
pub use item::{Included, Item, Property, entry_of, item_at, items_of, place_of};
pub use laws::{files_have_source, source_is_one};
pub use reading::Reading;
pub use values::filled;
pub use walking::walk;
