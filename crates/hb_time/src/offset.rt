//! The offset of a local time from UTC.

ghost use Rattle.std.specs.Prelude.{◌≡◌, ◌↔◌, ◌<◌, ◌^◌, ℕ, Some, IfSome};
ghost use Rattle.hb_time.specs.declared.offset.Offset.{Offset};
ghost use Rattle.hb_time.specs.Texts.{SpellsMinutes, SpellsOffset, InUtc};

use crate::digits::{number_at, number_before};

/// The minutes that local time is ahead of UTC, or behind it.
#[derive(Clone, Copy)]
pub(crate) enum Offset {
    Ahead(u32),
    Behind(u32),
}

/// The minutes of HH:MM.
fn read_minutes(text: &[u8]) -> Option<u32>
    ensures exact { (minutes : ℕ) → (result ≡ Some minutes) ↔ SpellsMinutes text.now minutes }
{
    let (hour, rest) = number_before(text, 2, b':')?;
    let (minute, rest) = number_at(rest, 2)?;
    if hour > 23 || minute > 59 || !rest.is_empty() {
        return None;
    }
    Some(60 * hour + minute)
}

/// The offset that the whole text names: `Z`, or a sign and HH:MM.
pub(crate) fn read_offset(text: &[u8]) -> Option<Offset>
    ensures exact { (offset : Offset) → (result ≡ Some offset) ↔ SpellsOffset text.now offset }
{
    let (sign, rest) = text.split_first()?;
    match *sign {
        b'Z' if rest.is_empty() => Some(Offset::Ahead(0)),
        b'+' => Some(Offset::Ahead(read_minutes(rest)?)),
        b'-' => Some(Offset::Behind(read_minutes(rest)?)),
        _ => None,
    }
}

/// The second of UTC that is this second of local time, both counted from 0000-01-01T00:00:00.
pub(crate) fn to_utc(local: u64, offset: Offset) -> Option<u64>
    requires { local < 2 ^ 40 }
    ensures exact { (utc : ℕ) → (result ≡ Some utc) ↔ InUtc local offset utc }
    ensures bound { IfSome result (λ utc. utc < 2 ^ 41) }
{
    match offset {
        Offset::Ahead(minutes) => local.checked_sub(60 * u64::from(minutes)),
        Offset::Behind(minutes) => Some(local + 60 * u64::from(minutes)),
    }
}
