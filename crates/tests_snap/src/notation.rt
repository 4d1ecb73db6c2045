use lq_base::NoMemory;
use std::alloc::Global;
use tests_table::{count, text};

fn number(digits: &str) -> i128 {
    digits.parse::<i128>().unwrap_or(0)
}

fn append_number(number: i128, to: &mut Vec<u8>) -> Result<(), NoMemory> {
    to.extend_from_slice(&number.to_be_bytes())?;
    Ok(())
}

fn append_text(alloc: Global, written: &str, to: &mut Vec<u8>) -> Result<(), NoMemory> {
    let text = text(alloc, written)?;
    append_number(text.len() as i128, to)?;
    to.extend_from_slice(text.as_bytes())?;
    Ok(())
}

fn append_bytes(written: &str, to: &mut Vec<u8>) -> Result<(), NoMemory> {
    let (byte, times) = match written.split_once('*') {
        Some((byte, times)) => (byte, count(times)),
        None => (written, 1),
    };
    let byte = byte.parse::<u8>().unwrap_or(0);
    for _ in 0..times {
        to.push(byte)?;
    }
    Ok(())
}

/// The bytes that a row writes: `n` and a number, which has 16 bytes; `t` and a text, which has its
/// length before it; a byte, or `BYTE*COUNT` of them. Blanks stand between them.
pub fn bytes(alloc: Global, field: &str) -> Result<Vec<u8>, NoMemory> {
    let mut bytes = Vec::new(alloc);
    for word in field.split(' ') {
        if let Some(digits) = word.strip_prefix('n') {
            append_number(number(digits), &mut bytes)?;
        } else if let Some(written) = word.strip_prefix('t') {
            append_text(alloc, written, &mut bytes)?;
        } else {
            append_bytes(word, &mut bytes)?;
        }
    }
    Ok(bytes)
}
