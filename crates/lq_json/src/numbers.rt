ghost use Rattle.std.specs.Prelude.{◌≡◌, ◌<◌, ◌==◌, IfSome, IsTrue, Some, false, length, option_and_then, slice_index, true};
ghost use Rattle.serde_json.specs.Find.{as_integer};
ghost use Rattle.serde_json.specs.Read.{number_from, number_of};

use fast_float::Numeral;

/// The whole number that a number's text spells, where an i64 or a u64 holds it.
pub fn whole_of(text: &str) -> Option<i128>
    ensures { IfSome result
        (λ whole. option_and_then as_integer (number_of text.now) ≡ Some whole) }
{
    let bytes = text.as_bytes();
    if has_minus(bytes) {
        below_zero(&Numeral::scan(&bytes[1..]))
    } else {
        from_zero(&Numeral::scan(bytes))
    }
}

fn has_minus(bytes: &[u8]) -> bool
    ensures value { result ≡ (slice_index bytes.now 0 == 45) }
    ensures some { IsTrue result → 0 < length bytes.now }
{
    !bytes.is_empty() && bytes[0] == b'-'
}

fn from_zero(numeral: &Numeral<'_>) -> Option<i128>
    ensures { IfSome result
        (λ whole. option_and_then as_integer (number_from false numeral.now) ≡ Some whole) }
{
    let whole = numeral.to_u64()?;
    Some(whole as i128)
}

fn below_zero(numeral: &Numeral<'_>) -> Option<i128>
    ensures { IfSome result
        (λ whole. option_and_then as_integer (number_from true numeral.now) ≡ Some whole) }
{
    let whole = numeral.to_i64(true)?;
    if whole < 0 { Some(whole as i128) } else { None }
}
