//! Writing an RFC 3339 text.

ghost use Rattle.std.specs.Prelude.{◌≡◌, ◌<◌, ◌≤◌, ◌++◌, ℕ, List, OnOk, OnErr, codes, take, length};
ghost use Rattle.hb_time.specs.Stamps.{IsPrintable};
ghost use Rattle.hb_time.specs.Texts.{day_text, clock_text, shortest, IsWritten};

use crate::clock::{Clock, clock_at};
use crate::day::{Day, day_at};
use crate::digits::last_digit;
use crate::stamp::{Stamp, utc_of};
use hb_wire::NoMemory;

/// YYYY-MM-DD and `T`.
fn day_bytes(day: Day) -> [u8; 11]
    ensures { result ≡ day_text day ++ codes "T" }
{
    [
        last_digit(day.year / 1_000),
        last_digit(day.year / 100),
        last_digit(day.year / 10),
        last_digit(day.year),
        b'-',
        last_digit(day.month / 10),
        last_digit(day.month),
        b'-',
        last_digit(day.day / 10),
        last_digit(day.day),
        b'T',
    ]
}

/// HH:MM:SS.
fn clock_bytes(clock: Clock) -> [u8; 8]
    ensures { result ≡ clock_text clock }
{
    [
        last_digit(clock.hour / 10),
        last_digit(clock.hour),
        b':',
        last_digit(clock.minute / 10),
        last_digit(clock.minute),
        b':',
        last_digit(clock.second / 10),
        last_digit(clock.second),
    ]
}

/// A point and the nine digits of the fraction, and how many of these bytes are written: with the
/// fewest of 0, 3, 6 and 9 digits that are exact.
fn fraction_bytes(nanos: u32) -> ([u8; 10], usize)
    ensures bytes { take result.1 result.0 ≡ shortest nanos }
    ensures size { result.1 ≤ 10 }
{
    let bytes = [
        b'.',
        last_digit(nanos / 100_000_000),
        last_digit(nanos / 10_000_000),
        last_digit(nanos / 1_000_000),
        last_digit(nanos / 100_000),
        last_digit(nanos / 10_000),
        last_digit(nanos / 1_000),
        last_digit(nanos / 100),
        last_digit(nanos / 10),
        last_digit(nanos),
    ];
    if nanos == 0 {
        return (bytes, 0);
    }
    if nanos % 1_000_000 == 0 {
        return (bytes, 4);
    }
    if nanos % 1_000 == 0 {
        return (bytes, 7);
    }
    (bytes, 10)
}

fn put(out: &mut Vec<u8>, day: Day, clock: Clock, nanos: u32) -> Result<(), NoMemory>
    ensures ok { OnOk result (out.new.items ≡ out.old.items
        ++ day_text day ++ codes "T" ++ clock_text clock ++ shortest nanos ++ codes "Z") }
    ensures front { take (length out.old.items) out.new.items ≡ out.old.items }
{
    let (fraction, size) = fraction_bytes(nanos);
    out.extend_from_slice(&day_bytes(day))?;
    out.extend_from_slice(&clock_bytes(clock))?;
    out.extend_from_slice(&fraction[..size])?;
    out.push(b'Z')?;
    Ok(())
}

/// Writes the text of a stamp at the end of `out` (RFC 3339, section 5.6): in UTC with `Z`, with 0,
/// 3, 6 or 9 digits of its fraction, the fewest that are exact. The stamp is `printable`. Where
/// memory runs out, `out` is as before.
pub fn write_rfc3339(out: &mut Vec<u8>, stamp: Stamp) -> Result<(), NoMemory>
    requires printable { IsPrintable stamp }
    ensures ok { OnOk result ((text : List ℕ) × IsWritten text stamp
        × (out.new.items ≡ out.old.items ++ text)) }
    ensures err { OnErr result (out.new.items ≡ out.old.items) }
{
    let utc = utc_of(stamp);
    let day = day_at((utc / 86_400) as u32);
    let clock = clock_at((utc % 86_400) as u32);
    let before = out.len();
    let written = put(out, day, clock, stamp.nanos as u32);
    if written.is_err() {
        out.truncate(before);
    }
    written
}
