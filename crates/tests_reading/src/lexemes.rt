use lq_base::{Dialect, Items, LexemeSort, NoMemory, Text};
use lq_sqllex::{SplitFault, lexeme_at, split};
use std::alloc::{AllocError, Global};

// The pieces in brackets.
fn show(out: &mut String, pieces: &Items<Text>) -> Result<(), AllocError> {
    for piece in pieces.as_slice() {
        out.push_str("[")?;
        out.push_str(piece.as_str())?;
        out.push_str("]")?;
    }
    Ok(())
}

fn shown(alloc: Global, pieces: &Items<Text>) -> Result<String, NoMemory> {
    let mut out = String::new(alloc);
    show(&mut out, pieces)?;
    Ok(out)
}

/// The pieces that a delimiter cuts a text into, or the fault's text.
pub fn pieces(
    alloc: Global,
    dialect: Dialect,
    delimiter: &str,
    text: &str,
) -> Result<String, NoMemory> {
    if delimiter.is_empty() {
        return Ok(String::from_str(alloc, "no delimiter")?);
    }
    match split(alloc, dialect, text, delimiter) {
        Ok(pieces) => shown(alloc, &pieces),
        Err(SplitFault::Unclosed) => Ok(format!(in alloc; "{}", SplitFault::Unclosed)?),
        Err(SplitFault::OutOfMemory) => Err(NoMemory),
    }
}

fn word(sort: LexemeSort) -> &'static str {
    match sort {
        LexemeSort::Blank => "Blank",
        LexemeSort::LineComment => "LineComment",
        LexemeSort::BlockComment => "BlockComment",
        LexemeSort::Name => "Name",
        LexemeSort::Text => "Text",
        LexemeSort::Number => "Number",
        LexemeSort::Word => "Word",
        LexemeSort::Mark => "Mark",
    }
}

/// Each lexeme's sort and number of bytes, and `?` where one is not closed.
pub fn lexemes(alloc: Global, dialect: Dialect, text: &str) -> Result<String, NoMemory> {
    let mut out = String::new(alloc);
    let mut left = text.as_bytes();
    while !left.is_empty() {
        let Some(lexeme) = lexeme_at(dialect, left) else {
            out.push_str("?")?;
            return Ok(out);
        };
        let sort = word(lexeme.sort);
        write!(out, "{sort} {} ", lexeme.bytes.len())?;
        left = lexeme.rest;
    }
    Ok(out)
}
