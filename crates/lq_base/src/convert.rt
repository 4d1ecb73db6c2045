ghost use Rattle.std.specs.Prelude.{◌≡◌, List, ℕ, Ok, ◌*◌, ◌^◌, ◌<◌, if◌then◌else◌, Some, None, IfSome, IfOk, IsTrue};
ghost use Rattle.lq_base.specs.Spells.{Goes, GoesAs, is_number_kind, SpellsMoment, SpellsNumber};
ghost use Rattle.lq_base.specs.Number.{has_digits};
ghost use Rattle.std.specs.Option.{option_and_then};
ghost use Rattle.lq_base.specs.Value.{into_kind, is_value_of, said_by_number, said_by_text, truth_of_text, with_decimals, within_width};

use crate::character::char_count;
use crate::kind::{Kind, is_word};
use crate::literal::Literal;
use crate::memory::NoMemory;
use crate::moment::moment_of;
use crate::number::{has_digits, number_of, signed};
use crate::text::Text;
use crate::value::Value;
use std::alloc::Global;
use thiserror::Error;

/// Why a literal did not become a value of a kind.
#[derive(Clone, Copy, Debug, PartialEq, Eq, Error)]
pub enum IntoFault {
    /// Literals of this sort do not go into the kind.
    #[error("wrong kind")]
    WrongKind,
    /// Out of range, or too many characters, digits or decimals.
    #[error("too wide")]
    TooWide,
    #[error("out of memory")]
    OutOfMemory,
}

impl From<NoMemory> for IntoFault {
    ghost use Rattle.std.specs.Prelude.{◌≡◌};
    ghost use Rattle.lq_base.specs.declared.convert.IntoFault.TheVariants.{OutOfMemory};

    ghost from_gives = { λ _ e. e ≡ OutOfMemory };

    fn from(_: NoMemory) -> IntoFault {
        IntoFault::OutOfMemory
    }
}

/// The value that the literal becomes in a column of the kind. Null goes into every kind. A number
/// goes into the number kinds, and 0 and 1 into Boolean; a decimal number into Decimal alone. A
/// text goes into Varchar and Text, into a number kind where it spells a number, into Boolean
/// where it is `true`, `false`, `1` or `0`, and into Moment where it spells one. A truth value
/// goes into Boolean. All else is WrongKind; what is out of range is TooWide.
pub fn into_kind(alloc: Global, literal: &Literal, kind: Kind) -> Result<Value, IntoFault>
    ensures answer { Goes (into_kind literal.now kind) result }
    ensures text_as_number { (text : List ℕ) → literal.now ≡ Literal.Text text
        → IsTrue (is_number_kind kind)
        → GoesAs (SpellsNumber text) (λ number. into_kind number kind) result }
    ensures text_as_moment { (text : List ℕ) → literal.now ≡ Literal.Text text
        → kind ≡ Kind.Moment
        → GoesAs (SpellsMoment text) (λ ms. Ok (Value.Moment ms)) result }
    ensures of_kind { IfOk result (λ value. IsTrue (is_value_of kind value)) }
{
    converted(alloc, literal, kind)
}

#[tactic(auto, unfolding(crate::specs::Value::into_kind))]
fn converted(alloc: Global, literal: &Literal, kind: Kind) -> Result<Value, IntoFault>
    ensures { Goes (into_kind literal.now kind) result }
{
    match literal {
        Literal::Null => Ok(Value::Null),
        Literal::Int(number) => int_into(*number, kind),
        Literal::Fixed { units, scale } => fixed_into(*units, *scale, kind),
        Literal::Text(text) => text_into(alloc, text.as_str(), kind),
        Literal::Bool(truth) => bool_into(*truth, kind),
    }
}

fn int_into(number: i128, kind: Kind) -> Result<Value, IntoFault>
    ensures { Goes (within_width kind (said_by_number kind (Literal.Int number))) result }
{
    match kind {
        Kind::Int => {
            if number < -2_147_483_648 || number > 2_147_483_647 {
                return Err(IntoFault::TooWide);
            }
            Ok(Value::Int(number as i64))
        }
        Kind::BigInt => {
            if number < -9_223_372_036_854_775_808 || number > 9_223_372_036_854_775_807 {
                return Err(IntoFault::TooWide);
            }
            Ok(Value::Int(number as i64))
        }
        Kind::Boolean => truth_of_number(number),
        Kind::Decimal(digits, places) => decimal_into(number, 0, digits, places),
        _ => Err(IntoFault::WrongKind),
    }
}

fn truth_of_number(number: i128) -> Result<Value, IntoFault>
    ensures { Goes (within_width Kind.Boolean (said_by_number Kind.Boolean (Literal.Int number)))
        result }
{
    if number == 0 {
        return Ok(Value::Bool(false));
    }
    if number == 1 {
        return Ok(Value::Bool(true));
    }
    Err(IntoFault::WrongKind)
}

fn fixed_into(units: i128, scale: u8, kind: Kind) -> Result<Value, IntoFault>
    ensures { Goes (within_width kind (said_by_number kind (Literal.Fixed units scale))) result }
{
    match kind {
        Kind::Decimal(digits, places) => decimal_into(units, scale, digits, places),
        _ => Err(IntoFault::WrongKind),
    }
}

fn decimal_into(units: i128, scale: u8, digits: u8, places: u8) -> Result<Value, IntoFault>
    ensures { Goes (within_width (Kind.Decimal digits places)
        (Some (with_decimals places units scale))) result }
{
    if places < scale {
        return Err(IntoFault::TooWide);
    }
    match scaled(units.unsigned_abs(), places - scale, digits) {
        Some(magnitude) => Ok(Value::Fixed {
            units: signed(units < 0, magnitude),
            scale: places,
        }),
        None => Err(IntoFault::TooWide),
    }
}

/// The number with so many more decimals, or None where it then has more digits than it may have.
fn scaled(magnitude: u128, more: u8, digits: u8) -> Option<u128>
    ensures value { result ≡ (if has_digits digits (magnitude * 10 ^ more) then Some
        (magnitude * 10 ^ more) else None) }
    ensures bound { IfSome result (λ scaled. scaled < 10 ^ 38) }
{
    if more == 0 {
        return within(magnitude, digits);
    }
    if magnitude >= 10_000_000_000_000_000_000_000_000_000_000_000_000 {
        return None;
    }
    scaled(magnitude * 10, more - 1, digits)
}

fn within(magnitude: u128, digits: u8) -> Option<u128>
    ensures value { result ≡ (if has_digits digits magnitude then Some magnitude else None) }
    ensures bound { IfSome result (λ same. same < 10 ^ 38) }
{
    if has_digits(digits, magnitude) {
        Some(magnitude)
    } else {
        None
    }
}

fn text_into(alloc: Global, text: &str, kind: Kind) -> Result<Value, IntoFault>
    ensures { Goes (within_width kind (said_by_text kind text.now)) result }
{
    match kind {
        Kind::Text => Ok(Value::Text(Text::new(alloc, text)?)),
        Kind::Varchar(most) => {
            if char_count(text) > most as usize {
                return Err(IntoFault::TooWide);
            }
            Ok(Value::Text(Text::new(alloc, text)?))
        }
        Kind::Boolean => truth_of_text(text),
        Kind::Moment => match moment_of(text.as_bytes()) {
            Some(ms) => Ok(Value::Moment(ms)),
            None => Err(IntoFault::WrongKind),
        },
        _ => spelled_into(number_of(text.as_bytes()), kind),
    }
}

fn truth_of_text(text: &str) -> Result<Value, IntoFault>
    ensures { Goes (within_width Kind.Boolean (truth_of_text text.now)) result }
{
    let bytes = text.as_bytes();
    if is_word(bytes, "true") || is_word(bytes, "1") {
        return Ok(Value::Bool(true));
    }
    if is_word(bytes, "false") || is_word(bytes, "0") {
        return Ok(Value::Bool(false));
    }
    Err(IntoFault::WrongKind)
}

fn spelled_into(number: Option<Literal>, kind: Kind) -> Result<Value, IntoFault>
    ensures { Goes (within_width kind (option_and_then (said_by_number kind) number)) result }
{
    match &number {
        Some(Literal::Int(number)) => int_into(*number, kind),
        Some(Literal::Fixed { units, scale }) => fixed_into(*units, *scale, kind),
        _ => Err(IntoFault::WrongKind),
    }
}

#[tactic(auto, unfolding(crate::specs::Value::into_kind))]
fn bool_into(truth: bool, kind: Kind) -> Result<Value, IntoFault>
    ensures { Goes (into_kind (Literal.Bool truth) kind) result }
{
    match kind {
        Kind::Boolean => Ok(Value::Bool(truth)),
        _ => Err(IntoFault::WrongKind),
    }
}
