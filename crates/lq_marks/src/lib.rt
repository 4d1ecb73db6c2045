//! Which bytes and lexemes mark out a text of SQL, in both dialects.
#![tactic(auto)]

mod byte;
mod enclosed;

pub use byte::{
    begins, byte_at, escapes, from, is_blank, is_name_quote, is_number_byte, is_text_quote,
    is_word_byte, nests,
};
pub use enclosed::is_enclosed;
