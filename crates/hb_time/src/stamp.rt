//! A moment.

ghost use Rattle.std.specs.Prelude.{◌≡◌, ◌↔◌, ◌/◌, ◌%◌, ◌<◌, ◌≤◌, ◌^◌, Some, pos, unsigned_abs, IsTrue};
ghost use Rattle.hb_time.specs.declared.stamp.Stamp.{Stamp};
ghost use Rattle.hb_time.specs.Stamps.{IsPrintable, stamp_of};
ghost use Rattle.hb_time.specs.Texts.{IsAt};

const SECOND: u64 = 1_000_000_000;

// 0001-01-01T00:00:00Z and 10000-01-01T00:00:00Z.
const YEAR_1: i64 = -62_135_596_800;

const YEAR_10000: i64 = 253_402_300_800;

// The seconds from 0000-01-01T00:00:00Z to 1970-01-01T00:00:00Z.
const EPOCH: i64 = 62_167_219_200;

/// A moment as whole seconds since 1970-01-01T00:00:00Z and nanoseconds, ordered by seconds first.
#[derive(Clone, Copy, Debug, PartialEq, Eq, PartialOrd, Ord)]
pub struct Stamp {
    pub secs: i64,
    pub nanos: i32,
}

/// The stamp of a moment in nanoseconds since 1970-01-01T00:00:00Z: the whole seconds and the rest.
pub fn of_moment(moment: u64) -> Stamp
    ensures stamp { result ≡ stamp_of moment }
{
    Stamp {
        secs: (moment / SECOND) as i64,
        nanos: (moment % SECOND) as i32,
    }
}

/// Whether the stamp has an RFC 3339 text: its year in UTC is 1 to 9999, and its nanoseconds are 0
/// to 999,999,999.
pub fn printable(stamp: Stamp) -> bool
    ensures exact { IsTrue result ↔ IsPrintable stamp }
{
    (YEAR_1..YEAR_10000).contains(&stamp.secs) && (0..1_000_000_000).contains(&stamp.nanos)
}

/// The stamp of a second of UTC, counted from 0000-01-01T00:00:00Z, where it is printable.
pub(crate) fn stamp_at(utc: u64, nanos: u32) -> Option<Stamp>
    requires utc { utc < 2 ^ 41 }
    requires nanos { nanos < 10 ^ 9 }
    ensures exact { (stamp : Stamp) → (result ≡ Some stamp) ↔ IsAt utc nanos stamp }
{
    let stamp = Stamp {
        secs: utc as i64 - EPOCH,
        nanos: nanos as i32,
    };
    if !printable(stamp) {
        return None;
    }
    Some(stamp)
}

/// The second of UTC of a stamp, counted from 0000-01-01T00:00:00Z.
pub(crate) fn utc_of(stamp: Stamp) -> u64
    requires { IsPrintable stamp }
    ensures at { IsAt result (unsigned_abs stamp.nanos) stamp }
    ensures bounds { (31_622_400 ≤ result) × (result < 315_569_520_000) }
{
    (stamp.secs + EPOCH) as u64
}
