use std::alloc::{AllocError, Global};

#[derive(Clone, Copy)]
enum State {
    Plain,
    Mark,
    High,
    Low(u8),
}

fn digit(byte: u8) -> u8 {
    match byte {
        b'0'..=b'9' => byte - b'0',
        b'a'..=b'f' => byte - b'a' + 10,
        _ => 0,
    }
}

fn marked(byte: u8) -> u8 {
    match byte {
        b'n' => b'\n',
        b't' => b'\t',
        b'r' => b'\r',
        _ => byte,
    }
}

fn take(state: State, byte: u8, made: &mut Vec<u8>) -> Result<State, AllocError> {
    match (state, byte) {
        (State::Plain, b'\\') => return Ok(State::Mark),
        (State::Mark, b'x') => return Ok(State::High),
        (State::High, _) => return Ok(State::Low(digit(byte))),
        (State::Plain, _) => made.push(byte)?,
        (State::Mark, _) => made.push(marked(byte))?,
        (State::Low(high), _) => made.push(high.wrapping_mul(16).wrapping_add(digit(byte)))?,
    }
    Ok(State::Plain)
}

/// The bytes that a field writes: `\n`, `\t`, `\r`, `\\` and `\x` with two digits are one each.
pub fn bytes(alloc: Global, field: &str) -> Result<Vec<u8>, AllocError> {
    let mut made = Vec::new(alloc);
    let mut state = State::Plain;
    for byte in field.as_bytes() {
        state = take(state, *byte, &mut made)?;
    }
    Ok(made)
}

/// The text that a field writes.
pub fn text(alloc: Global, field: &str) -> Result<String, AllocError> {
    let made = bytes(alloc, field)?;
    String::from_utf8_lossy(alloc, made.as_slice())
}

/// A number of the table, 0 where it is none.
pub fn count(field: &str) -> usize {
    field.parse::<usize>().unwrap_or(0)
}
