ghost use Rattle.std.specs.Prelude.{◌≡◌, ◌^◌, ◌<◌, ◌≤◌, true, cond, Some, None, MatchOption};
ghost use Rattle.std.specs.Char.{is_ascii_digit};
ghost use Rattle.std.specs.List.{list_all, list_any};
ghost use Rattle.std.specs.Str.Parse.{digits_value, starts_with_minus};
ghost use Rattle.lq_base.specs.Number.{is_dot, signed, without_minus};
ghost use Rattle.lq_base.specs.declared.literal.Literal.TheVariants as constant;
ghost use Rattle.lq_model.specs.Comparison.{is_literal};
ghost use Rattle.lq_model.specs.SqlPart as spec;

use lq_base::{Literal, is_digits, number_of};

const MOST: u128 = 1 << 127;

// The number that decimal digits write, where it is at most 2^127.
fn magnitude_of(digits: &[u8]) -> Option<u128>
    requires { list_all is_ascii_digit digits.now ≡ true }
    ensures { MatchOption result (2 ^ 127 < digits_value 10 digits.now)
        (λ n. (n ≡ digits_value 10 digits.now) × (n ≤ 2 ^ 127)) }
{
    let mut value: u128 = 0;
    let mut rest = digits;
    while let [digit, more @ ..] = rest {
        if value > MOST / 10 {
            return None;
        }
        value = value * 10 + u128::from(*digit - b'0');
        if value > MOST {
            return None;
        }
        rest = more;
    }
    Some(value)
}

fn signed_of(negative: bool, magnitude: u128) -> Option<i128>
    requires { magnitude ≤ 2 ^ 127 }
    ensures { result
        ≡ cond (is_literal (constant.Int (signed negative magnitude)))
        (Some (signed negative magnitude)) None }
{
    if magnitude == MOST {
        if negative { Some(i128::MIN) } else { None }
    } else if negative {
        Some(-(magnitude as i128))
    } else {
        Some(magnitude as i128)
    }
}

fn whole_by(negative: bool, digits: &[u8]) -> Option<Literal>
    ensures { result ≡ spec.whole_by negative digits.now }
{
    if !is_digits(digits) {
        return None;
    }
    let magnitude = magnitude_of(digits)?;
    let number = signed_of(negative, magnitude)?;
    Some(Literal::Int(number))
}

fn whole(bytes: &[u8]) -> Option<Literal>
    ensures { result ≡ spec.whole_by (starts_with_minus bytes.now) (without_minus bytes.now) }
{
    match bytes {
        [b'-', digits @ ..] => whole_by(true, digits),
        _ => whole_by(false, bytes),
    }
}

fn has_dot(bytes: &[u8]) -> bool
    ensures { result ≡ list_any is_dot bytes.now }
{
    bytes.iter().any(|byte| *byte == b'.')
}

/// The number that some bytes spell in SQL: a whole one within 128 signed bits, or one with a point
/// and at most 38 digits.
#[tactic(auto, unfolding(lq_model::specs::SqlPart::number))]
pub fn number(bytes: &[u8]) -> Option<Literal>
    ensures { result ≡ spec.number bytes.now }
{
    if has_dot(bytes) {
        number_of(bytes)
    } else {
        whole(bytes)
    }
}
