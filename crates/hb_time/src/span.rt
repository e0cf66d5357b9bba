//! Spans of time.

ghost use Rattle.std.specs.Prelude.{◌≡◌, ◌↔◌, ℕ, List, Some, Ok};
ghost use Rattle.std.specs.Str.Parse.{IsNumeral};
ghost use Rattle.hb_time.specs.Reading.{EndsInUnit, given};
ghost use Rattle.hb_time.specs.Spans.{SpellsNumber, SpellsSpan};

use crate::bad_time::BadTime;

const MOST: u32 = 1_000_000_000;

/// The text before its unit, and the nanoseconds of the unit.
fn split_unit(text: &str) -> Option<(&str, u64)>
    ensures exact { (digits : List ℕ) (scale : ℕ) → IsNumeral 10 digits
        → (given result ≡ Some (digits, scale)) ↔ EndsInUnit text.now digits scale }
{
    if let Some(front) = text.strip_suffix('s') {
        return match front.strip_suffix('m') {
            Some(digits) => Some((digits, 1_000_000)),
            None => Some((front, 1_000_000_000)),
        };
    }
    if let Some(digits) = text.strip_suffix('m') {
        return Some((digits, 60_000_000_000));
    }
    match text.strip_suffix('h') {
        Some(digits) => Some((digits, 3_600_000_000_000)),
        None => None,
    }
}

/// The number that the whole text is in decimal digits, where it is not too large.
fn read_number(text: &str) -> Option<u32>
    ensures exact { (n : ℕ) → (result ≡ Some n) ↔ SpellsNumber text.now n }
{
    if text.starts_with('+') {
        return None;
    }
    match text.parse::<u32>() {
        Ok(number) if number <= MOST => Some(number),
        _ => None,
    }
}

/// The nanoseconds of a span: one or more decimal digits, at most 1,000,000,000, and `ms`, `s`, `m`
/// or `h`. It stops at 2^64 - 1.
///
/// `BadTime` exactly where the text spells none.
pub fn read_span(text: &str) -> Result<u64, BadTime>
    ensures exact { (nanos : ℕ) → (result ≡ Ok nanos) ↔ SpellsSpan text.now nanos }
{
    let Some((digits, scale)) = split_unit(text) else {
        return Err(BadTime);
    };
    match read_number(digits) {
        Some(number) => Ok(u64::from(number).saturating_mul(scale)),
        None => Err(BadTime),
    }
}
