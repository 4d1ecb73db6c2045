ghost use Rattle.std.specs.Prelude.{◌≡◌, ◌≤◌, ◌&&◌, length, cond, Some, None};
ghost use Rattle.std.specs.Str.Parse.{signed_digits_value};
ghost use Rattle.lq_yaml.specs.Line.{stops, plain_length, is_plain, begins_otherwise, ends_with_colon};
ghost use Rattle.lq_yaml.specs.Meaning.{is_mark, is_whole, is_begun, is_digit, fits_128, plain_node};
ghost use Rattle.std.specs.List.{list_all};

use crate::chars::{begins_with, is_word_end};
use lq_base::Text;
use lq_tree::Node;

/// How many characters the plain scalar at the front has, with the blanks behind it.
pub fn plain_length(from: &[char]) -> usize
    ensures count { result ≡ plain_length from.now }
    ensures bound { result ≤ length from.now }
{
    let mut count = 0;
    let mut rest = from;
    while let [c, more @ ..] = rest {
        if stops(*c, more) {
            return count;
        }
        rest = more;
        count += 1;
    }
    count
}

fn stops(c: char, more: &[char]) -> bool
    ensures { result ≡ stops c more.now }
{
    (c == ':' && is_word_end(more)) || (c == ' ' && begins_with('#', more))
}

/// Whether a plain scalar may begin so.
pub fn is_plain(text: &[char]) -> bool
    ensures { result ≡ is_plain text.now }
{
    match text {
        [] => false,
        [c, more @ ..] => !is_mark(*c) && !begins_otherwise(*c, more),
    }
}

fn begins_otherwise(c: char, more: &[char]) -> bool
    ensures { result ≡ begins_otherwise c more.now }
{
    (c == '-' && is_word_end(more)) || (c == '?' && begins_with(' ', more))
}

fn is_mark(c: char) -> bool
    ensures { result ≡ is_mark c }
{
    matches!(
        c,
        '[' | ']'
            | '{'
            | '}'
            | ','
            | '&'
            | '*'
            | '#'
            | '|'
            | '>'
            | '!'
            | '%'
            | '@'
            | '"'
            | '\''
            | '`'
            | '\t'
    )
}

pub fn ends_with_colon(text: &[char]) -> bool
    ensures { result ≡ ends_with_colon text.now }
{
    matches!(text, [.., ':'])
}

/// What a plain scalar means.
pub fn plain_node(text: Text) -> Node
    ensures { result ≡ plain_node text }
{
    if text.as_str() == "null" || text.as_str() == "~" {
        return Node::Null;
    }
    if text.as_str() == "true" {
        return Node::Truth(true);
    }
    if text.as_str() == "false" {
        return Node::Truth(false);
    }
    match whole_of(text.as_str()) {
        Some(number) => Node::Whole(number),
        None => Node::Text(text),
    }
}

/// The whole number that a text spells.
fn whole_of(text: &str) -> Option<i128>
    ensures { result
        ≡ cond (is_whole text.now && fits_128 (signed_digits_value 10 text.now))
        (Some (signed_digits_value 10 text.now)) None }
{
    if !is_whole(text.as_bytes()) {
        return None;
    }
    text.parse::<i128>().ok()
}

fn is_whole(text: &[u8]) -> bool
    ensures { result ≡ is_whole text.now }
{
    match text {
        [b'0'] => true,
        [b'-', first, more @ ..] => is_begun(*first, more),
        [first, more @ ..] => is_begun(*first, more),
        [] => false,
    }
}

fn is_begun(first: u8, more: &[u8]) -> bool
    ensures { result ≡ is_begun first more.now }
{
    first >= b'1' && first <= b'9' && are_digits(more)
}

fn are_digits(more: &[u8]) -> bool
    ensures { result ≡ list_all is_digit more.now }
{
    more.iter().all(|b| *b >= b'0' && *b <= b'9')
}
