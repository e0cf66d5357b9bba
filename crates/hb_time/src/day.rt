//! A day of the calendar, over `jiff`'s civil dates.

ghost use Rattle.std.specs.Prelude.{◌≡◌, ◌↔◌, ◌<◌, ◌≤◌, ◌++◌, ℕ, List, Some, IfSome, codes};
ghost use Rattle.hb_time.specs.declared.day.Day.{Day};
ghost use Rattle.hb_time.specs.Calendar.{IsDay, day_number};
ghost use Rattle.hb_time.specs.Texts.{day_text};
ghost use Rattle.hb_time.specs.Reading.{FitsDigits, taken};

use crate::digits::number_before;
use jiff::civil::Date;

// The days from 0000-01-01 to 1970-01-01.
const EPOCH: i64 = 719_528;

/// A year, a month and a day.
#[derive(Clone, Copy)]
pub(crate) struct Day {
    pub year: u32,
    pub month: u32,
    pub day: u32,
}

/// The digits of a day at the front of the text, YYYY-MM-DD, and what stands behind `T`.
pub(crate) fn day_front(text: &[u8]) -> Option<(Day, &[u8])>
    ensures exact { (day : Day) (rest : List ℕ) → (taken result ≡ Some (day, rest))
        ↔ (FitsDigits day × (text.now ≡ day_text day ++ codes "T" ++ rest)) }
{
    let (year, rest) = number_before(text, 4, b'-')?;
    let (month, rest) = number_before(rest, 2, b'-')?;
    let (day, rest) = number_before(rest, 2, b'T')?;
    Some((Day { year, month, day }, rest))
}

/// The days from 0000-01-01 to the day, where the calendar has it.
pub(crate) fn number_of(day: Day) -> Option<u32>
    requires { FitsDigits day }
    ensures exact { (n : ℕ) → (result ≡ Some n) ↔ (IsDay day × (n ≡ day_number day)) }
    ensures bound { IfSome result (λ n. n < 3_652_425) }
{
    let date = Date::new(day.year as i16, day.month as i8, day.day as i8).ok()?;
    let since_1970 = i64::from(date.to_plain().to_unix_epoch_day());
    Some((since_1970 + EPOCH) as u32)
}

/// The day that is so many days after 0000-01-01, in the years 1 to 9999.
pub(crate) fn day_at(number: u32) -> Day
    requires { (366 ≤ number) × (number < 3_652_425) }
    ensures is_day { IsDay result }
    ensures number { day_number result ≡ number }
{
    match jiff_core::civil::Date::from_unix_epoch_day(i64::from(number) - EPOCH) {
        Ok(date) => Day {
            year: date.year as u32,
            month: u32::from(date.month),
            day: u32::from(date.day),
        },
        Err(_) => unreachable!(),
    }
}
