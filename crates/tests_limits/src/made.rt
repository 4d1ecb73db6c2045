use std::alloc::{AllocError, Global};

/// Appends a text so many times.
pub fn push_times(to: &mut String, text: &str, count: usize) -> Result<(), AllocError> {
    for _ in 0..count {
        to.push_str(text)?;
    }
    Ok(())
}

/// A text so many times.
pub fn times(alloc: Global, text: &str, count: usize) -> Result<String, AllocError> {
    let mut all = String::new(alloc);
    push_times(&mut all, text, count)?;
    Ok(all)
}

/// A text between two.
pub fn between(alloc: Global, front: &str, inside: &str, back: &str) -> Result<String, AllocError> {
    let mut all = String::from_str(alloc, front)?;
    all.push_str(inside)?;
    all.push_str(back)?;
    Ok(all)
}

/// A changelog of the same item so many times and then another.
pub fn changelog_of(
    alloc: Global,
    item: &str,
    count: usize,
    last: &str,
) -> Result<String, AllocError> {
    let mut text = String::from_str(alloc, r#"{"databaseChangeLog":["#)?;
    push_times(&mut text, item, count)?;
    text.push_str(last)?;
    text.push_str("]}")?;
    Ok(text)
}
