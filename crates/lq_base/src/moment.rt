ghost use Rattle.std.specs.Prelude.{◌≡◌, ◌↔◌, ◌<◌, ◌≤◌, ◌+◌, ◌*◌, ◌^◌, ◌%◌, ◌-◌, ◌++◌, ◌+ℤ◌, ◌*ℤ◌, ◌<ℤ◌, ◌≤ℤ◌, ℤ, pos, neg_ℤ, unsigned_abs, ◌∷◌, take, drop, length, OnOk, OnErr, IfSome, ◌==◌, Some, None};
ghost use Rattle.jiff_core.specs.Date.{epoch_day};
ghost use Rattle.lq_base.specs.Moment.{IsMoment, is_moment, has_byte, has_day_marks, has_clock_marks, has_marks, digits_at, day_number, day_of, clock_number, clock_of, moment_of, moment_text, text_since, clock_text, day_text, day_after, day_of_date};
ghost use Rattle.lq_base.specs.Number.{last_digits};
ghost use Rattle.lq_base.specs.Spells.{SpellsMoment};

use crate::memory::NoMemory;
use crate::number::{all_digits, value_after};
use crate::text::Text;
use jiff_core::civil::Date;
use std::str;

/// The moment that a text spells, in milliseconds since 1970-01-01 00:00:00: `YYYY-MM-DD`, then
/// nothing, or a blank or `T` and `HH:MM:SS`, or that and `.mmm`; a day of the years 0001 to 9999.
/// None where it spells none.
pub fn read_moment(text: &str) -> Option<i64>
    ensures spelled { (ms : ℤ) → (result ≡ Some ms) ↔ SpellsMoment text.now ms }
    ensures none { (result ≡ None) ↔ ((ms : ℤ) → ¬ (SpellsMoment text.now ms)) }
{
    moment_of(text.as_bytes())
}

/// The moment that some bytes spell, as `read_moment` reads it, for readers of a text's parts.
#[tactic(auto, unfolding(crate::specs::Moment::moment_of))]
pub fn moment_of(text: &[u8]) -> Option<i64>
    ensures { result ≡ moment_of text.now }
{
    if !has_marks(text) {
        return None;
    }
    let day = day_of(text)?;
    let clock = clock_of(text)?;
    Some(moment_at(day, clock))
}

fn moment_at(day: i64, clock: u32) -> i64
    requires low { neg_ℤ (pos 719_162) ≤ℤ day }
    requires high { day ≤ℤ pos 2_932_896 }
    requires clock { clock < 86_400_000 }
    ensures { result ≡ (day *ℤ pos 86_400_000) +ℤ pos clock }
{
    day * 86_400_000 + i64::from(clock)
}

fn has_marks(text: &[u8]) -> bool
    ensures { result ≡ has_marks text.now }
{
    if !has_day_marks(text) {
        return false;
    }
    if text.len() == 10 {
        return true;
    }
    if !has_clock_marks(text) {
        return false;
    }
    text.len() == 19 || (text.len() == 23 && has_byte(19, b'.', text))
}

fn has_day_marks(text: &[u8]) -> bool
    ensures { result ≡ has_day_marks text.now }
{
    has_byte(4, b'-', text) && has_byte(7, b'-', text)
}

fn has_clock_marks(text: &[u8]) -> bool
    ensures { result ≡ has_clock_marks text.now }
{
    if !has_byte(10, b' ', text) && !has_byte(10, b'T', text) {
        return false;
    }
    has_byte(13, b':', text) && has_byte(16, b':', text)
}

fn has_byte(place: usize, byte: u8, text: &[u8]) -> bool
    requires { 0 < byte }
    ensures { result ≡ has_byte place byte text.now }
{
    place < text.len() && text[place] == byte
}

fn day_of(text: &[u8]) -> Option<i64>
    ensures value { result ≡ day_of text.now }
    ensures bound { IfSome result (λ day. (neg_ℤ (pos 719_162) ≤ℤ day)
        × (day ≤ℤ pos 2_932_896)) }
{
    let year = digits_at(0, 4, text)?;
    let month = digits_at(5, 2, text)?;
    let day = digits_at(8, 2, text)?;
    day_number(year, month, day)
}

fn day_number(year: u32, month: u32, day: u32) -> Option<i64>
    ensures value { result ≡ day_number year month day }
    ensures bound { IfSome result (λ day. (neg_ℤ (pos 719_162) ≤ℤ day)
        × (day ≤ℤ pos 2_932_896)) }
{
    if year < 1 || year > 9999 || month > 12 || day > 31 {
        return None;
    }
    match Date::new(year as i16, month as i8, day as i8) {
        Ok(date) => Some(i64::from(date.to_unix_epoch_day())),
        Err(_) => None,
    }
}

fn clock_of(text: &[u8]) -> Option<u32>
    ensures value { result ≡ clock_of text.now }
    ensures bound { IfSome result (λ clock. clock < 86_400_000) }
{
    let hour = digits_at(11, 2, text)?;
    let minute = digits_at(14, 2, text)?;
    let second = digits_at(17, 2, text)?;
    let milli = digits_at(20, 3, text)?;
    clock_number(hour, minute, second, milli)
}

fn clock_number(hour: u32, minute: u32, second: u32, milli: u32) -> Option<u32>
    requires { milli < 1000 }
    ensures value { result ≡ clock_number hour minute second milli }
    ensures bound { IfSome result (λ clock. clock < 86_400_000) }
{
    if hour >= 24 || minute >= 60 || second >= 60 {
        return None;
    }
    Some(((hour * 60 + minute) * 60 + second) * 1000 + milli)
}

fn digits_at(start: usize, count: usize, text: &[u8]) -> Option<u32>
    requires start { start < 32 }
    requires count { count ≤ 4 }
    ensures value { result ≡ digits_at start count text.now }
    ensures bound { IfSome result (λ value. value < 10 ^ count) }
{
    let digits = part(start, count, text);
    if !all_digits(digits) {
        return None;
    }
    Some(value_after(0, digits) as u32)
}

fn part(start: usize, count: usize, text: &[u8]) -> &[u8]
    requires { start + count < 64 }
    ensures value { result.now ≡ take count (drop start text.now) }
    ensures bound { length result.now ≤ count }
{
    if start >= text.len() {
        return &[];
    }
    let rest = &text[start..];
    if count >= rest.len() {
        return rest;
    }
    &rest[..count]
}

/// Whether the milliseconds are a moment of the years 0001 to 9999.
pub fn is_moment(ms: i64) -> bool
    ensures { result ≡ is_moment ms }
{
    ms >= -62_135_596_800_000 && ms <= 253_402_300_799_999
}

/// Appends the moment's 23 bytes `YYYY-MM-DD HH:MM:SS.mmm`, or changes nothing where there is no
/// memory.
#[tactic(auto, unfolding(crate::specs::Moment::moment_text))]
pub fn print_moment(ms: i64, to: &mut Text) -> Result<(), NoMemory>
    requires { IsMoment ms }
    ensures ok { OnOk result (to.new ≡ to.old ++ moment_text ms) }
    ensures err { OnErr result (to.new ≡ to.old) }
{
    append_since(since_year_1(ms), to)
}

fn since_year_1(ms: i64) -> u64
    requires { IsMoment ms }
    ensures value { result ≡ unsigned_abs (ms +ℤ pos 62_135_596_800_000) }
    ensures bound { result < 315_537_897_600_000 }
{
    (ms + 62_135_596_800_000) as u64
}

fn append_since(since: u64, to: &mut Text) -> Result<(), NoMemory>
    requires { since < 315_537_897_600_000 }
    ensures ok { OnOk result (to.new ≡ to.old ++ text_since since) }
    ensures err { OnErr result (to.new ≡ to.old) }
{
    let bytes = bytes_since(since);
    match str::from_utf8(&bytes) {
        Ok(text) => to.push_str(text),
        Err(_) => unreachable!(),
    }
}

fn bytes_since(since: u64) -> [u8; 23]
    requires { since < 315_537_897_600_000 }
    ensures { result ≡ text_since since }
{
    let date = date_after((since / 86_400_000) as u32);
    moment_bytes(date, (since % 86_400_000) as u32)
}

/// The day so many days after 0001-01-01.
fn date_after(count: u32) -> Date
    requires { count ≤ 3_652_058 }
    ensures year { result.year ≡ pos (day_after count).year }
    ensures month { result.month ≡ (day_after count).month }
    ensures day { result.day ≡ (day_after count).day }
{
    date_of_day(i64::from(count) - 719_162)
}

fn date_of_day(day: i64) -> Date
    requires low { neg_ℤ (pos 719_162) ≤ℤ day }
    requires high { day ≤ℤ pos 2_932_896 }
    ensures { epoch_day result ≡ day }
{
    Date::from_unix_epoch_day(day).unwrap()
}

fn moment_bytes(date: Date, clock: u32) -> [u8; 23]
    requires year { pos 0 <ℤ date.year }
    requires clock { clock < 86_400_000 }
    ensures { result ≡ day_text (day_of_date date) ++ 32 ∷ clock_text clock }
{
    let [y1, y2, y3, y4] = four_digits(date.year as u32);
    let [m1, m2] = two_digits(u32::from(date.month));
    let [d1, d2] = two_digits(u32::from(date.day));
    let [h1, h2] = two_digits(clock / 3_600_000);
    let [n1, n2] = two_digits(clock / 60_000 % 60);
    let [s1, s2] = two_digits(clock / 1000 % 60);
    let [_, f1, f2, f3] = four_digits(clock % 1000);
    [
        y1, y2, y3, y4, b'-', m1, m2, b'-', d1, d2, b' ', h1, h2, b':', n1, n2, b':', s1, s2, b'.',
        f1, f2, f3,
    ]
}

fn two_digits(number: u32) -> [u8; 2]
    ensures value { result ≡ last_digits 2 number }
{
    [digit(number / 10), digit(number)]
}

fn four_digits(number: u32) -> [u8; 4]
    ensures { result ≡ last_digits 4 number }
{
    [
        digit(number / 1000),
        digit(number / 100),
        digit(number / 10),
        digit(number),
    ]
}

/// The last decimal digit.
fn digit(number: u32) -> u8
    ensures { result ≡ 48 + number % 10 }
{
    b'0' + (number % 10) as u8
}
