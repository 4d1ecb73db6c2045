use crate::running::copied;
use std::alloc::Global;
use std::process::Abort;

// The body of the entry behind an open gate, and what stands after it.
fn first_entry(bytes: &[u8]) -> Option<(&[u8], &[u8])> {
    match bytes {
        [1, a, b, c, d, behind @ ..] => {
            let length = u32::from_be_bytes([*a, *b, *c, *d]) as usize;
            if length > behind.len() {
                return None;
            }
            Some(behind.split_at(length))
        }
        _ => None,
    }
}

// Whether the first text of a body changes the lock's row: behind the byte T and the text's length.
fn is_of_lock(body: &[u8]) -> bool {
    let text = body.get(5..).unwrap_or(&[]);
    text.starts_with(b"UPDATE \"DATABASECHANGELOGLOCK\"")
        || text.starts_with(b"UPDATE `DATABASECHANGELOGLOCK`")
}

/// Which entries of a journal are meant.
#[derive(Clone, Copy, PartialEq, Eq)]
pub enum Which {
    All,
    /// Those that do more than take, mark or free the lock.
    Work,
}

/// The bodies of a file's entries, one after another.
pub fn bodies(rt: &impl Abort, alloc: Global, bytes: &[u8], which: Which) -> Vec<u8> {
    let mut found = Vec::new(alloc);
    let mut left = bytes.get(16..).unwrap_or(&[]);
    for _ in 0..bytes.len() {
        let Some((body, behind)) = first_entry(left) else {
            return found;
        };
        if which == Which::All || !is_of_lock(body) {
            found.extend_from_slice(body).expect(rt, "memory");
        }
        left = behind;
    }
    found
}

// How many bytes are the same at the front of both.
fn same_front(one: &[u8], other: &[u8]) -> usize {
    for place in 0..one.len().min(other.len()) {
        if one[place] != other[place] {
            return place;
        }
    }
    one.len().min(other.len())
}

/// What a crash may leave of a write that was not synced: the front half of the bytes that it changed.
pub fn torn(rt: &impl Abort, alloc: Global, before: &[u8], after: &[u8]) -> Vec<u8> {
    let half = (same_front(before, after) / 2).saturating_add(after.len() / 2);
    let mut left = copied(rt, alloc, after.get(..half).unwrap_or(after));
    let behind = before.get(half..).unwrap_or(&[]);
    left.extend_from_slice(behind).expect(rt, "memory");
    left
}
