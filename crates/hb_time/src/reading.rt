//! Reading an RFC 3339 text.

ghost use Rattle.std.specs.Prelude.{◌≡◌, ◌↔◌, ◌<◌, ◌^◌, ℕ, Some, Ok, IfSome};
ghost use Rattle.hb_time.specs.declared.offset.Offset.{Offset};
ghost use Rattle.hb_time.specs.declared.stamp.Stamp.{Stamp};
ghost use Rattle.hb_time.specs.Calendar.{IsDay};
ghost use Rattle.hb_time.specs.Stamps.{IsClock, seconds};
ghost use Rattle.hb_time.specs.Texts.{SpellsEnd, SpellsStamp, IsAt};
ghost use Rattle.hb_time.specs.Reading.{FitsDigits};

use crate::bad_time::BadTime;
use crate::clock::{Clock, clock_front, seconds_of};
use crate::day::{Day, day_front, number_of};
use crate::digits::digits_at;
use crate::offset::{Offset, read_offset, to_utc};
use crate::stamp::{Stamp, stamp_at};

/// The nanoseconds of the fraction, and the offset behind it, that are the whole text.
fn read_end(text: &[u8]) -> Option<(u32, Offset)>
    ensures exact { (nanos : ℕ) (offset : Offset) → (result ≡ Some (nanos, offset))
        ↔ SpellsEnd text.now nanos offset }
    ensures bound { IfSome result (λ both. both.0 < 10 ^ 9) }
{
    let (first, digits) = text.split_first()?;
    if *first != b'.' {
        return Some((0, read_offset(text)?));
    }
    let (number, count) = digits_at(digits, 9);
    if count == 0 {
        return None;
    }
    let offset = read_offset(&digits[count..])?;
    Some((number * 10_u32.pow(9 - count as u32), offset))
}

/// The second of local time, counted from 0000-01-01T00:00:00, where the calendar has the day.
fn local_of(day: Day, clock: Clock) -> Option<u64>
    requires digits { FitsDigits day }
    requires clock { IsClock clock }
    ensures exact { (local : ℕ) → (result ≡ Some local)
        ↔ (IsDay day × (local ≡ seconds day clock)) }
    ensures bound { IfSome result (λ local. local < 2 ^ 40) }
{
    let number = number_of(day)?;
    Some(86_400 * u64::from(number) + u64::from(seconds_of(clock)))
}

fn read_stamp(text: &[u8]) -> Option<Stamp>
    ensures exact { (stamp : Stamp) → (result ≡ Some stamp) ↔ SpellsStamp text.now stamp }
{
    let (day, rest) = day_front(text)?;
    let (clock, rest) = clock_front(rest)?;
    let (nanos, offset) = read_end(rest)?;
    let utc = to_utc(local_of(day, clock)?, offset)?;
    stamp_at(utc, nanos)
}

/// The stamp that the text spells (RFC 3339, section 5.6): `YYYY-MM-DDTHH:MM:SS`, an optional point
/// with one to nine digits, and `Z`, `+HH:MM` or `-HH:MM`. Letters are upper case, there is no leap
/// second, and the moment is in the years 1 to 9999 of UTC.
///
/// `BadTime` exactly where the text spells none.
pub fn read_rfc3339(text: &str) -> Result<Stamp, BadTime>
    ensures exact { (stamp : Stamp) → (result ≡ Ok stamp) ↔ SpellsStamp text.now stamp }
{
    match read_stamp(text.as_bytes()) {
        Some(stamp) => Ok(stamp),
        None => Err(BadTime),
    }
}
