//! A time of day.

ghost use Rattle.std.specs.Prelude.{◌≡◌, ◌↔◌, ◌<◌, ◌++◌, List, ℕ, Some};
ghost use Rattle.hb_time.specs.declared.clock.Clock.{Clock};
ghost use Rattle.hb_time.specs.Stamps.{IsClock, clock_seconds};
ghost use Rattle.hb_time.specs.Texts.{clock_text};
ghost use Rattle.hb_time.specs.Reading.{taken};

use crate::digits::{number_at, number_before};

/// A time of day, to the second.
#[derive(Clone, Copy)]
pub(crate) struct Clock {
    pub hour: u32,
    pub minute: u32,
    pub second: u32,
}

/// The time of day at the front of the text, HH:MM:SS, and what stands behind it.
pub(crate) fn clock_front(text: &[u8]) -> Option<(Clock, &[u8])>
    ensures exact { (clock : Clock) (rest : List ℕ) → (taken result ≡ Some (clock, rest))
        ↔ (IsClock clock × (text.now ≡ clock_text clock ++ rest)) }
{
    let (hour, rest) = number_before(text, 2, b':')?;
    let (minute, rest) = number_before(rest, 2, b':')?;
    let (second, rest) = number_at(rest, 2)?;
    if hour > 23 || minute > 59 || second > 59 {
        return None;
    }
    let clock = Clock {
        hour,
        minute,
        second,
    };
    Some((clock, rest))
}

/// The seconds from the beginning of the day.
pub(crate) fn seconds_of(clock: Clock) -> u32
    requires { IsClock clock }
    ensures value { result ≡ clock_seconds clock }
    ensures bound { result < 86_400 }
{
    3_600 * clock.hour + 60 * clock.minute + clock.second
}

/// The time of day that is so many seconds after its beginning.
pub(crate) fn clock_at(second: u32) -> Clock
    requires { second < 86_400 }
    ensures is_clock { IsClock result }
    ensures second { clock_seconds result ≡ second }
{
    Clock {
        hour: second / 3_600,
        minute: second / 60 % 60,
        second: second % 60,
    }
}
