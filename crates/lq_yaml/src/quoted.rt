ghost use Rattle.std.specs.Prelude.{◌≡◌, ◌<◌, IfOk, IfSome, length};
ghost use Rattle.lq_yaml.specs.Line.{single, double, by_code, by_escape};
ghost use Rattle.lq_yaml.specs.Meaning.{escaped, hex_digit, coded};
ghost use Rattle.lq_yaml.specs.Laws.{one, Gives, Follows};

use lq_base::NoMemory;
use std::alloc::Global;

/// The value of a single-quoted scalar behind its first quote, and what follows it.
pub fn single_of(alloc: Global, from: &[char]) -> Result<Option<(Vec<char>, &[char])>, NoMemory>
    ensures { IfOk result (λ o. Gives o (single from.now)) }
{
    let mut value = Vec::new(alloc);
    let mut rest = from;
    loop {
        match rest {
            [] => return Ok(None),
            ['\'', '\'', more @ ..] => {
                value.push('\'')?;
                rest = more;
            }
            ['\'', more @ ..] => return Ok(Some((value, more))),
            [c, more @ ..] => {
                value.push(*c)?;
                rest = more;
            }
        }
    }
}

/// The value of a double-quoted scalar behind its first quote, and what follows it.
pub fn double_of(alloc: Global, from: &[char]) -> Result<Option<(Vec<char>, &[char])>, NoMemory>
    ensures { IfOk result (λ o. Gives o (double from.now)) }
{
    let mut value = Vec::new(alloc);
    let mut rest = from;
    loop {
        match one_of(rest) {
            Some((Some(c), more)) => {
                value.push(c)?;
                rest = more;
            }
            Some((None, more)) => return Ok(Some((value, more))),
            None => return Ok(None),
        }
    }
}

/// The next character that is meant, or the end.
fn one_of(from: &[char]) -> Option<(Option<char>, &[char])>
    ensures meant { Follows result (one from.now) }
    ensures shorter { IfSome result (λ x. length x.1.now < length from.now) }
{
    match from {
        [] => None,
        ['"', more @ ..] => Some((None, more)),
        ['\\', more @ ..] => {
            let (c, after) = escape_of(more)?;
            Some((Some(c), after))
        }
        [c, more @ ..] => Some((Some(*c), more)),
    }
}

fn escape_of(from: &[char]) -> Option<(char, &[char])>
    ensures meant { Follows result (by_escape from.now) }
    ensures shorter { IfSome result (λ x. length x.1.now < length from.now) }
{
    match from {
        ['u', more @ ..] => four_of(more),
        [sign, more @ ..] => Some((escaped(*sign)?, more)),
        [] => None,
    }
}

fn escaped(sign: char) -> Option<char>
    ensures { result ≡ escaped sign }
{
    match sign {
        '\\' | '"' | '/' => Some(sign),
        'n' => Some('\n'),
        't' => Some('\t'),
        'r' => Some('\r'),
        '0' => Some('\0'),
        _ => None,
    }
}

fn four_of(from: &[char]) -> Option<(char, &[char])>
    ensures meant { Follows result (by_code from.now) }
    ensures shorter { IfSome result (λ x. length x.1.now < length from.now) }
{
    match from {
        [a, b, c, d, more @ ..] => Some((coded(*a, *b, *c, *d)?, more)),
        _ => None,
    }
}

fn coded(a: char, b: char, c: char, d: char) -> Option<char>
    ensures { result ≡ coded a b c d }
{
    let value = digit(a)? * 4096 + digit(b)? * 256 + digit(c)? * 16 + digit(d)?;
    char::from_u32(value)
}

fn digit(c: char) -> Option<u32>
    ensures value { result ≡ hex_digit c }
    ensures small { IfSome result (λ d. d < 16) }
{
    match c {
        '0'..='9' => Some(c as u32 - 48),
        'a'..='f' => Some(c as u32 - 87),
        'A'..='F' => Some(c as u32 - 55),
        _ => None,
    }
}
