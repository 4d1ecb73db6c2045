//! Names, texts, kinds, values, moments and what the layers tell each other: the words that every
//! other crate is written in.
#![tactic(auto)]

mod character;
mod command;
mod convert;
mod dialect;
mod duplicate;
mod fault;
mod identity;
mod kind;
pub mod laws;
mod lexeme;
mod literal;
mod memory;
mod moment;
mod name;
mod number;
mod parts;
mod places;
mod reason;
mod run;
mod text;
mod tracking;
mod value;

pub use character::{char_count, has_control};
pub use command::{Command, Target};
pub use convert::{IntoFault, into_kind};
pub use dialect::Dialect;
pub use duplicate::{Duplicate, Same};
pub use fault::KindFault;
pub use identity::Identity;
pub use kind::{Kind, plain_number};
pub use lexeme::LexemeSort;
pub use literal::Literal;
pub use memory::NoMemory;
pub use moment::{is_moment, moment_of, print_moment, read_moment};
pub use name::{Name, NameFault};
pub use number::{
    all_digits, append_fixed, append_whole, has_digits, is_digits, number_of, place_of,
    read_number, value_after,
};
pub use parts::{both, cut};
pub use places::{is_placed, placed};
pub use reason::Reason;
pub use run::{Did, Happened, OnFail, Printed, Why};
pub use sqlite_items::{Boxed, Items};
pub use text::Text;
pub use tracking::{Exec, Lock, Tracked};
pub use value::Value;
