ghost use Rattle.std.specs.List.{prefix_len};
ghost use Rattle.std.specs.Prelude.{◌≡◌, ◌++◌, ◌≤◌, IfOk, IfSome, OnOk, length};
ghost use Rattle.lq_base.specs.Sql.{is_pair};
ghost use Rattle.lq_model.specs.SqlWord as spec;
ghost use Rattle.lq_parse.specs.Plain.{is_plain};

use lq_base::Items;
use std::alloc::{AllocError, Global};

fn is_pair(escaping: bool, quote: u8, first: u8, second: u8) -> bool
    ensures { result ≡ is_pair escaping quote first second }
{
    (first == quote && second == quote) || (escaping && first == b'\\')
}

fn escaped(byte: u8) -> u8
    ensures { result ≡ spec.escaped byte }
{
    match byte {
        b'0' => 0,
        b'n' => b'\n',
        b't' => b'\t',
        b'r' => b'\r',
        b'b' => 8,
        b'Z' => 26,
        _ => byte,
    }
}

fn push_pair(to: &mut Items<u8>, first: u8, second: u8) -> Result<(), AllocError>
    ensures { OnOk result (to.new ≡ to.old ++ spec.pair_text first second) }
{
    if first != b'\\' {
        return to.push(first);
    }
    if second == b'%' || second == b'_' {
        to.push(first)?;
        to.push(second)
    } else {
        to.push(escaped(second))
    }
}

fn inside(alloc: Global, escaping: bool, quote: u8, text: &[u8]) -> Result<Items<u8>, AllocError>
    ensures { IfOk result (λ it. it ≡ spec.inside escaping quote text.now) }
{
    let mut out = Items::new(alloc);
    let mut rest = text;
    while let [first, second, after @ ..] = rest {
        if is_pair(escaping, quote, *first, *second) {
            push_pair(&mut out, *first, *second)?;
            rest = after;
        } else {
            out.push(*first)?;
            rest = &rest[1..];
        }
    }
    Ok(out)
}

fn is_plain(escaping: bool, quote: u8, byte: u8) -> bool
    ensures { result ≡ is_plain escaping quote byte }
{
    byte != quote && !(escaping && byte == b'\\')
}

fn plain_front(escaping: bool, quote: u8, text: &[u8]) -> usize
    ensures value { result ≡ prefix_len (is_plain escaping quote) text.now }
    ensures bound { result ≤ length text.now }
{
    for (count, byte) in text.iter().enumerate() {
        if !is_plain(escaping, quote, *byte) {
            return count;
        }
    }
    text.len()
}

/// What stands in the quotes, where each byte of it stands for itself.
pub fn plain_inside(escaping: bool, bytes: &[u8]) -> Option<&[u8]>
    ensures { IfSome result (λ text. text.now ≡ spec.unquoted escaping bytes.now) }
{
    let [quote, rest @ ..] = bytes else {
        return None;
    };
    let count = plain_front(escaping, *quote, rest);
    if rest.len() - count != 1 {
        return None;
    }
    Some(&rest[..count])
}

/// The characters of a string or of a name in quotes, as bytes, of which the first is the opening
/// quote and the last the closing one.
#[tactic(auto, unfolding(lq_model::specs::SqlWord::unquoted))]
pub fn unquoted(alloc: Global, escaping: bool, bytes: &[u8]) -> Result<Items<u8>, AllocError>
    ensures { IfOk result (λ it. it ≡ spec.unquoted escaping bytes.now) }
{
    match bytes {
        [quote, rest @ ..] => inside(alloc, escaping, *quote, rest),
        [] => Ok(Items::new(alloc)),
    }
}
