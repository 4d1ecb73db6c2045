use lq_base::Text;
use lq_sqlfile::{SqlFault, SqlFile, SqlSet, read_sql};
use std::alloc::{AllocError, Global};

// ` NAME[TEXT]`, where there is a text.
fn show_some(out: &mut String, name: &str, text: &Option<Text>) -> Result<(), AllocError> {
    match text {
        Some(text) => show_text(out, name, text.as_str()),
        None => Ok(()),
    }
}

fn show_text(out: &mut String, name: &str, text: &str) -> Result<(), AllocError> {
    out.push_str(" ")?;
    out.push_str(name)?;
    out.push_str("[")?;
    out.push_str(text)?;
    out.push_str("]")
}

fn show_pairs(out: &mut String, pairs: &[(Text, Text)]) -> Result<(), AllocError> {
    for pair in pairs {
        show_text(out, pair.0.as_str(), pair.1.as_str())?;
    }
    Ok(())
}

fn show_set(out: &mut String, set: &SqlSet) -> Result<(), AllocError> {
    write!(out, "{} ", set.line)?;
    out.push_str(set.author.as_str())?;
    out.push_str(":")?;
    out.push_str(set.id.as_str())?;
    show_pairs(out, set.attributes.as_slice())?;
    show_text(out, "comment", set.comment.as_str())?;
    show_some(out, "onFail", &set.on_fail)?;
    show_some(out, "onError", &set.on_error)?;
    show_pairs(out, set.checks.as_slice())?;
    show_text(out, "body", set.body.as_str())?;
    show_some(out, "rollback", &set.rollback)?;
    out.push_str(";")
}

fn show_file(out: &mut String, file: &SqlFile) -> Result<(), AllocError> {
    show_some(out, "path", &file.logical)?;
    for set in file.sets.as_slice() {
        show_set(out, set)?;
    }
    Ok(())
}

/// What the bytes of a file hold or what is wrong with them, as one text. Of more than 10,000 bytes
/// nothing is said.
pub fn shown(alloc: Global, bytes: &[u8]) -> Result<String, AllocError> {
    let mut out = String::new(alloc);
    if bytes.len() > 10_000 {
        return Ok(out);
    }
    match read_sql(alloc, bytes) {
        Ok(file) => show_file(&mut out, &file)?,
        Err(SqlFault::NoHeader) => out.push_str("no header")?,
        Err(SqlFault::Line(line)) => write!(out, "line {line}")?,
        Err(SqlFault::OutOfMemory) => out.push_str("out of memory")?,
    }
    Ok(out)
}

/// The same of the lines behind a header.
pub fn shown_behind(alloc: Global, lines: &str) -> Result<String, AllocError> {
    let mut text = String::from_str(alloc, "--liquibase formatted sql\n")?;
    text.push_str(lines)?;
    shown(alloc, text.as_bytes())
}
