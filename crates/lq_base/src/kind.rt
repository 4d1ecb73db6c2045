ghost use Rattle.std.specs.Prelude.{◌≡◌, ◌↔◌, ◌++◌, ◌≤◌, length, Some, None, OnOk, OnErr};
ghost use Rattle.std.specs.List.{list_all, position_or_len};
ghost use Rattle.std.specs.Str.{str_eq_ignore_ascii_case};
ghost use Rattle.lq_base.specs.Kind.{is_kind, plain_kind, sized_kind, decimal_kind, plain_number, is_blank, is_no_blank, is_no_digit, number_before_blanks, spaced_number, kind_with, kind_after_open, kind_of, kind_text};
ghost use Rattle.lq_base.specs.Spells.{NamesKind};
ghost use Rattle.lq_base.specs.declared.kind.Kind.{Kind};

use crate::dialect::Dialect;
use crate::memory::NoMemory;
use crate::number::{is_digits, place_of, value_after};
use crate::text::Text;
use itoa::Buffer;

/// The type of a column.
#[derive(Clone, Copy, PartialEq, Eq)]
pub enum Kind {
    /// A whole number of 32 bits.
    Int,
    /// A whole number of 64 bits.
    BigInt,
    Boolean,
    /// A text of at most so many characters, 1 to 10,000.
    Varchar(u32),
    Text,
    /// A point in time, without a time zone.
    Moment,
    /// Digits in all, 1 to 38, and of these the ones after the point.
    Decimal(u8, u8),
}

impl Kind {
    /// The kind that a changelog's text names, in any ASCII case; blanks around the numbers in
    /// parentheses are free. None where it names none.
    pub fn read(text: &str) -> Option<Kind>
        ensures named { (kind : Kind) → (result ≡ Some kind) ↔ NamesKind text.now kind }
        ensures none { (result ≡ None) ↔ ((kind : Kind) → ¬ (NamesKind text.now kind)) }
    {
        kind_of(text.as_bytes())
    }

    /// The kind that one word names, in any ASCII case.
    #[tactic(auto, unfolding(crate::specs::Kind::plain_kind))]
    pub fn plain(word: &[u8]) -> Option<Kind>
        ensures { result ≡ plain_kind word.now }
    {
        if is_word(word, "int") || is_word(word, "integer") {
            Some(Kind::Int)
        } else if is_word(word, "bigint") {
            Some(Kind::BigInt)
        } else if is_word(word, "boolean") || is_word(word, "bool") {
            Some(Kind::Boolean)
        } else if is_word(word, "text") || is_word(word, "clob") {
            Some(Kind::Text)
        } else if is_word(word, "timestamp") || is_word(word, "datetime") {
            Some(Kind::Moment)
        } else {
            None
        }
    }

    /// The kind that a word with one number in parentheses names.
    #[tactic(auto, unfolding(crate::specs::Kind::sized_kind))]
    pub fn sized(word: &[u8], number: u128) -> Option<Kind>
        ensures { result ≡ sized_kind word.now number }
    {
        if is_word(word, "varchar") {
            if number < 1 || number > 10_000 {
                return None;
            }
            Some(Kind::Varchar(number as u32))
        } else if is_word(word, "datetime") && number == 3 {
            Some(Kind::Moment)
        } else {
            None
        }
    }

    /// The kind that a word with two numbers in parentheses names.
    #[tactic(auto, unfolding(crate::specs::Kind::decimal_kind))]
    pub fn decimal(word: &[u8], digits: u128, scale: u128) -> Option<Kind>
        ensures { result ≡ decimal_kind word.now digits scale }
    {
        if !is_word(word, "decimal") && !is_word(word, "numeric") {
            return None;
        }
        if digits < 1 || digits > 38 || scale > digits {
            return None;
        }
        Some(Kind::Decimal(digits as u8, scale as u8))
    }

    /// Appends the dialect's spelling of the kind, or changes nothing where there is no memory.
    pub fn append_to(self, dialect: Dialect, to: &mut Text) -> Result<(), NoMemory>
        ensures ok { OnOk result (to.new ≡ to.old ++ kind_text dialect self) }
        ensures err { OnErr result (to.new ≡ to.old) }
    {
        match self {
            Kind::Int => match dialect {
                Dialect::Postgresql => to.push_str("INTEGER"),
                Dialect::Mysql => to.push_str("INT"),
            },
            Kind::BigInt => to.push_str("BIGINT"),
            Kind::Boolean => to.push_str("BOOLEAN"),
            Kind::Varchar(most) => {
                let mut buffer = Buffer::new();
                to.push_all(&["VARCHAR(", buffer.format(most), ")"])
            }
            Kind::Text => to.push_str("TEXT"),
            Kind::Moment => match dialect {
                Dialect::Postgresql => to.push_str("TIMESTAMP"),
                Dialect::Mysql => to.push_str("DATETIME(3)"),
            },
            Kind::Decimal(digits, scale) => {
                let mut first = Buffer::new();
                let mut second = Buffer::new();
                let digits = first.format(digits);
                let scale = second.format(scale);
                to.push_all(&["DECIMAL(", digits, ", ", scale, ")"])
            }
        }
    }

    /// Whether the kind is one that can be named: its numbers are within their limits.
    pub fn is_kind(self) -> bool
        ensures { result ≡ is_kind self }
    {
        match self {
            Kind::Varchar(most) => most >= 1 && most <= 10_000,
            Kind::Decimal(digits, scale) => digits >= 1 && digits <= 38 && scale <= digits,
            _ => true,
        }
    }
}

pub fn is_word(text: &[u8], word: &str) -> bool
    ensures { result ≡ str_eq_ignore_ascii_case text.now word.now }
{
    text.eq_ignore_ascii_case(word.as_bytes())
}

#[tactic(auto, unfolding(crate::specs::Kind::kind_of))]
fn kind_of(text: &[u8]) -> Option<Kind>
    ensures { result ≡ kind_of text.now }
{
    let open = place_of(text, b'(');
    if open < text.len() {
        kind_after_open(&text[..open], &text[open + 1..])
    } else {
        Kind::plain(text)
    }
}

fn kind_after_open(word: &[u8], rest: &[u8]) -> Option<Kind>
    ensures { result ≡ kind_after_open word.now rest.now }
{
    match rest {
        [inside @ .., b')'] => kind_with(word, inside),
        _ => None,
    }
}

fn kind_with(word: &[u8], inside: &[u8]) -> Option<Kind>
    ensures { result ≡ kind_with word.now inside.now }
{
    let comma = place_of(inside, b',');
    if comma < inside.len() {
        let digits = spaced_number(&inside[..comma])?;
        let scale = spaced_number(&inside[comma + 1..])?;
        Kind::decimal(word, digits, scale)
    } else {
        Kind::sized(word, spaced_number(inside)?)
    }
}

fn spaced_number(text: &[u8]) -> Option<u128>
    ensures { result ≡ spaced_number text.now }
{
    number_before_blanks(&text[blanks_before(text)..])
}

fn number_before_blanks(text: &[u8]) -> Option<u128>
    ensures { result ≡ number_before_blanks text.now }
{
    let count = digits_before(text);
    if !are_blanks(&text[count..]) {
        return None;
    }
    plain_number(&text[..count])
}

/// The number that decimal digits write, at most 38 of them and without a leading zero. None
/// where the text is something else.
pub fn plain_number(text: &[u8]) -> Option<u128>
    ensures { result ≡ plain_number text.now }
{
    if !is_digits(text) || text.len() > 38 {
        return None;
    }
    if text.len() != 1 && text[0] == b'0' {
        return None;
    }
    Some(value_after(0, text))
}

fn are_blanks(text: &[u8]) -> bool
    ensures { result ≡ list_all is_blank text.now }
{
    text.iter().all(|byte| *byte == b' ' || *byte == b'\t')
}

fn blanks_before(text: &[u8]) -> usize
    ensures value { result ≡ position_or_len is_no_blank text.now }
    ensures bound { result ≤ length text.now }
{
    text.iter()
        .position(|byte| !(*byte == b' ' || *byte == b'\t'))
        .unwrap_or(text.len())
}

fn digits_before(text: &[u8]) -> usize
    ensures value { result ≡ position_or_len is_no_digit text.now }
    ensures bound { result ≤ length text.now }
{
    text.iter()
        .position(|byte| !byte.is_ascii_digit())
        .unwrap_or(text.len())
}
