ghost use Rattle.std.specs.Prelude.{◌≡◌, ◌↔◌, ◌+◌, ◌*◌, ◌/◌, ◌^◌, ◌<◌, ◌≤◌, ◌==◌, ◌++◌, true, length, min, Some, None, OnOk, OnErr, string_bytes};
ghost use Rattle.std.specs.Bool.{OnTrue};
ghost use Rattle.std.specs.Char.{is_ascii_digit};
ghost use Rattle.std.specs.List.{list_all, position_or_len};
ghost use Rattle.std.specs.Str.Parse.{digits_value_after, starts_with_minus};
ghost use Rattle.lq_base.specs.Number.{signed, is_digits, without_minus, whole_number, decimal_number, unsigned_number, number_of, has_digits, whole_text, last_digits, fixed_text};
ghost use Rattle.lq_base.specs.Spells.{SpellsNumber};
ghost use Rattle.lq_base.specs.declared.literal.Literal.{Literal};

use crate::literal::Literal;
use crate::memory::NoMemory;
use crate::text::Text;
use itoa::Buffer;
use std::alloc::{AllocError, Global};

/// The number that a text spells: `-?digits`, or `-?digits.digits`, with at most 38 digits. None
/// where it spells none.
pub fn read_number(text: &str) -> Option<Literal>
    ensures spelled { (number : Literal)
        → (result ≡ Some number) ↔ SpellsNumber text.now number }
    ensures none { (result ≡ None) ↔ ((number : Literal)
        → ¬ (SpellsNumber text.now number)) }
{
    number_of(text.as_bytes())
}

/// The number that some bytes spell, as `read_number` reads it, for readers of a text's parts.
#[tactic(auto, unfolding(crate::specs::Number::number_of))]
pub fn number_of(text: &[u8]) -> Option<Literal>
    ensures { result ≡ number_of text.now }
{
    unsigned_number(begins_with_minus(text), without_minus(text))
}

fn begins_with_minus(text: &[u8]) -> bool
    ensures { result ≡ starts_with_minus text.now }
{
    match text {
        [b'-', ..] => true,
        _ => false,
    }
}

fn without_minus(text: &[u8]) -> &[u8]
    ensures { result.now ≡ without_minus text.now }
{
    match text {
        [b'-', rest @ ..] => rest,
        _ => text,
    }
}

fn unsigned_number(negative: bool, text: &[u8]) -> Option<Literal>
    ensures { result ≡ unsigned_number negative text.now }
{
    let dot = place_of(text, b'.');
    if dot < text.len() {
        decimal_number(negative, &text[..dot], &text[dot + 1..])
    } else {
        whole_number(negative, text)
    }
}

/// The place of the first such byte, or the length where there is none.
pub fn place_of(text: &[u8], byte: u8) -> usize
    ensures value { result ≡ position_or_len (λ b. b == byte) text.now }
    ensures bound { result ≤ length text.now }
{
    text.iter().position(|b| *b == byte).unwrap_or(text.len())
}

fn whole_number(negative: bool, digits: &[u8]) -> Option<Literal>
    ensures { result ≡ whole_number negative digits.now }
{
    if !is_digits(digits) || digits.len() > 38 {
        return None;
    }
    let magnitude = value_after(0, digits);
    Some(Literal::Int(signed(negative, magnitude)))
}

fn decimal_number(negative: bool, whole: &[u8], fraction: &[u8]) -> Option<Literal>
    requires { length whole.now + length fraction.now < 2 ^ 64 }
    ensures { result ≡ decimal_number negative whole.now fraction.now }
{
    if !is_digits(whole) || !is_digits(fraction) || whole.len() + fraction.len() > 38 {
        return None;
    }
    let magnitude = value_after(value_after(0, whole), fraction);
    Some(Literal::Fixed {
        units: signed(negative, magnitude),
        scale: fraction.len() as u8,
    })
}

/// Whether the text is one decimal digit or more, and nothing else.
pub fn is_digits(text: &[u8]) -> bool
    ensures { result ≡ is_digits text.now }
{
    !text.is_empty() && all_digits(text)
}

/// Whether each byte of the text is a decimal digit.
pub fn all_digits(text: &[u8]) -> bool
    ensures { result ≡ list_all is_ascii_digit text.now }
{
    text.iter().all(|byte| byte.is_ascii_digit())
}

/// The number that the digits write when they follow those of `value`.
pub fn value_after(value: u128, digits: &[u8]) -> u128
    requires digits { list_all is_ascii_digit digits.now ≡ true }
    requires fits { (value + 1) * 10 ^ length digits.now ≤ 10 ^ 38 }
    ensures value { result ≡ digits_value_after 10 value digits.now }
    ensures bound { result + 1 ≤ (value + 1) * 10 ^ length digits.now }
{
    match digits {
        [] => value,
        [digit, rest @ ..] => value_after(value * 10 + u128::from(*digit - b'0'), rest),
    }
}

pub fn signed(negative: bool, magnitude: u128) -> i128
    requires { magnitude < 2 ^ 127 }
    ensures { result ≡ signed negative magnitude }
{
    if negative {
        -(magnitude as i128)
    } else {
        magnitude as i128
    }
}

/// Appends a whole number in decimal digits, or changes nothing where there is no memory.
pub fn append_whole(number: i128, to: &mut Text) -> Result<(), NoMemory>
    ensures ok { OnOk result (to.new ≡ to.old ++ whole_text number) }
    ensures err { OnErr result (to.new ≡ to.old) }
{
    let mut buffer = Buffer::new();
    to.push_str(buffer.format(number))
}

/// Appends `units` divided by ten to the power `scale`, with `scale` digits after the dot, or
/// changes nothing where there is no memory. There is no dot where `scale` is 0.
pub fn append_fixed(alloc: Global, units: i128, scale: u8, to: &mut Text) -> Result<(), NoMemory>
    ensures ok { OnOk result (to.new ≡ to.old ++ fixed_text units scale) }
    ensures err { OnErr result (to.new ≡ to.old) }
{
    if scale == 0 {
        return append_whole(units, to);
    }
    let magnitude = units.unsigned_abs();
    let mut fraction = String::new(alloc);
    push_last_digits(scale, magnitude, &mut fraction)?;
    let mut buffer = Buffer::new();
    let whole = buffer.format(without_last_digits(scale, magnitude));
    let sign = if units < 0 { "-" } else { "" };
    to.push_all(&[sign, whole, ".", fraction.as_str()])
}

fn push_last_digits(count: u8, number: u128, to: &mut String) -> Result<(), AllocError>
    ensures { OnOk result (string_bytes to.new
        ≡ string_bytes to.old ++ last_digits count number) }
{
    if count == 0 {
        return Ok(());
    }
    push_last_digits(count - 1, number / 10, to)?;
    to.push((b'0' + (number % 10) as u8) as char)
}

fn without_last_digits(count: u8, number: u128) -> u128
    ensures { result ≡ number / 10 ^ count }
{
    if count > 38 {
        return 0;
    }
    number / 10u128.pow(count as u32)
}

/// Whether the number has at most so many digits, and at most 38.
pub fn has_digits(digits: u8, magnitude: u128) -> bool
    ensures value { result ≡ has_digits digits magnitude }
    ensures bound { OnTrue result (magnitude < 10 ^ 38) }
{
    magnitude < ten_to(digits)
}

fn ten_to(digits: u8) -> u128
    ensures value { result ≡ 10 ^ min digits 38 }
    ensures bound { result ≤ 10 ^ 38 }
{
    10u128.pow(u32::from(digits).min(38))
}
