//! Stamps and spans, worked out by hand and by `date -u`, and the examples of RFC 3339.

use super::*;
use hb_cases::{CaseFault, Row, number, rows, unquoted};
use hb_wire::NoMemory;
use std::alloc::{AllocError, Global};
use std::test::*;

/// Texts, with the seconds and nanoseconds of their stamps.
const TEXTS: &str = "
    # RFC 3339, section 5.8.
    1985-04-12T23:20:50.52Z        | 482196050 520000000
    1996-12-19T16:39:57-08:00      | 851042397 0
    1996-12-20T00:39:57Z           | 851042397 0
    1937-01-01T12:00:27.87+00:20   | -1041337173 870000000
    # The ends of the range.
    0001-01-01T00:00:00Z           | -62135596800 0
    9999-12-31T23:59:59.999999999Z | 253402300799 999999999
    0000-12-31T23:30:00-01:00      | -62135595000 0
    0000-12-31T23:00:00-01:00      | -62135596800 0
    # Leap days.
    2000-02-29T00:00:00Z           | 951782400 0
    2024-02-29T12:00:00Z           | 1709208000 0
    1900-02-28T00:00:00Z           | -2203977600 0
    1900-03-01T00:00:00Z           | -2203891200 0
    # Offsets that cross a year.
    2024-01-01T00:30:00+01:00      | 1704065400 0
    2023-12-31T23:30:00-01:00      | 1704069000 0
    1970-01-01T12:00:00+01:00      | 39600 0
    1970-01-01T00:00:00-00:00      | 0 0
    1970-01-01T00:00:00+00:00      | 0 0
    1970-01-01T00:00:00+23:59      | -86340 0
    1970-01-01T00:00:00-23:59      | 86340 0
    # Fractions.
    1970-01-01T00:00:00.5Z         | 0 500000000
    1970-01-01T00:00:00.000000001Z | 0 1
    1970-01-01T00:00:00.120000000Z | 0 120000000
    1969-12-31T23:59:59.25Z        | -1 250000000
    1970-01-01T00:00:00.0+00:01    | -60 0
";

/// Texts that spell no stamp.
const BAD_TEXTS: &str = r#"
    ""
    Z
    # Leap seconds: RFC 3339, section 5.8.
    1990-12-31T23:59:60Z
    1990-12-31T15:59:60-08:00
    # Out of the range.
    0000-12-31T23:59:59.999999999Z
    0000-12-31T23:29:59-00:30
    0001-01-01T00:29:59+00:30
    0000-01-01T00:00:00+01:00
    9999-12-31T23:30:00-00:30
    10000-01-01T00:00:00Z
    # Days that the calendar lacks.
    1900-02-29T00:00:00Z
    2023-02-29T00:00:00Z
    2024-02-30T00:00:00Z
    2024-04-31T00:00:00Z
    2024-00-01T00:00:00Z
    2024-13-01T00:00:00Z
    2024-01-00T00:00:00Z
    2024-01-32T00:00:00Z
    # Times and offsets that a day lacks.
    2024-01-01T24:00:00Z
    2024-01-01T00:60:00Z
    2024-01-01T00:00:00+24:00
    2024-01-01T00:00:00+00:60
    # One byte wrong.
    2024-01-01t00:00:00Z
    2024-01-01 00:00:00Z
    2024-01-01T00:00:00z
    2024-01-01T00:00:00
    2024-01-01T00:00:00 Z
    2024-01-01T00:00:00ZZ
    "2024-01-01T00:00:00Z "
    " 2024-01-01T00:00:00Z"
    2024/01/01T00:00:00Z
    2024-01-01T00.00.00Z
    2024-01-01T00:00Z
    2024-01-01Z
    2024-01-01
    202-01-01T00:00:00Z
    +024-01-01T00:00:00Z
    2024-1-01T00:00:00Z
    2024-01-1T00:00:00Z
    2024-01-01T0:00:00Z
    2024-01-01T00:00:0Z
    2024-01-01T00:00:0aZ
    ２024-01-01T00:00:00Z
    # Fractions and offsets.
    2024-01-01T00:00:00.Z
    2024-01-01T00:00:00,5Z
    2024-01-01T00:00:00.1234567890Z
    2024-01-01T00:00:00.5
    2024-01-01T00:00:00.5 Z
    2024-01-01T00:00:00+0000
    2024-01-01T00:00:00+00
    2024-01-01T00:00:00+00:0
    2024-01-01T00:00:00+00:000
"#;

/// A stamp's seconds and nanoseconds.
fn parts(alloc: Global, stamp: Stamp) -> Result<String, AllocError> {
    format!(in alloc; "{} {}", stamp.secs, stamp.nanos)
}

#[test]
fn texts_are_read(rt: HostRuntime) -> Result<(), Fail> {
    for row in &rows(rt.alloc(), TEXTS)? {
        let stamp = read_rfc3339(row.cell(0)).ok().ok_or(row.text)?;
        assert_eq!(rt; parts(rt.alloc(), stamp)?.as_str(), row.cell(1), "{row}");
    }
    Ok(())
}

#[test]
fn other_texts_spell_no_stamp(rt: HostRuntime) -> Result<(), Fail> {
    for row in &rows(rt.alloc(), BAD_TEXTS)? {
        assert_eq!(rt; read_rfc3339(unquoted(row.text)), Err(BadTime), "{row}");
    }
    Ok(())
}

/// Seconds and nanoseconds of stamps, and their texts.
const WRITTEN: &str = "
    0            | 0         | 1970-01-01T00:00:00Z
    -1           | 0         | 1969-12-31T23:59:59Z
    0            | 120000000 | 1970-01-01T00:00:00.120Z
    0            | 1000000   | 1970-01-01T00:00:00.001Z
    0            | 999000000 | 1970-01-01T00:00:00.999Z
    0            | 1000      | 1970-01-01T00:00:00.000001Z
    0            | 123456000 | 1970-01-01T00:00:00.123456Z
    0            | 1         | 1970-01-01T00:00:00.000000001Z
    0            | 100000010 | 1970-01-01T00:00:00.100000010Z
    -62135596800 | 0         | 0001-01-01T00:00:00Z
    253402300799 | 999999999 | 9999-12-31T23:59:59.999999999Z
    951782399    | 0         | 2000-02-28T23:59:59Z
    951868799    | 0         | 2000-02-29T23:59:59Z
    -2203891201  | 0         | 1900-02-28T23:59:59Z
";

/// The stamp of a row's first two cells.
fn stamp_of<'a>(row: Row<'a>) -> Result<Stamp, CaseFault<'a>> {
    Ok(Stamp {
        secs: number(row.cell(0))?,
        nanos: number(row.cell(1))?,
    })
}

/// Whether the text is what is written of the stamp, behind what stood there.
fn is_written(alloc: Global, stamp: Stamp, text: &str) -> Result<bool, NoMemory> {
    if !printable(stamp) {
        return Ok(false);
    }
    let mut out = Vec::from_slice(alloc, b"at ")?;
    write_rfc3339(&mut out, stamp)?;
    Ok(out.strip_prefix(b"at ") == Some(text.as_bytes()))
}

#[test]
fn stamps_are_written(rt: HostRuntime) -> Result<(), Fail> {
    for row in &rows(rt.alloc(), WRITTEN)? {
        assert!(rt;
            is_written(rt.alloc(), stamp_of(*row)?, row.cell(2))?,
            "{row}"
        );
    }
    Ok(())
}

/// Seconds and nanoseconds of stamps, and whether they are printable.
const PRINTABLE: &str = "
    0                    | 0           | true
    0                    | -1          | false
    0                    | 999999999   | true
    0                    | 1000000000  | false
    -62135596800         | 0           | true
    -62135596801         | 999999999   | false
    253402300799         | 999999999   | true
    253402300800         | 0           | false
    -9223372036854775808 | 0           | false
    9223372036854775807  | 0           | false
    0                    | -2147483648 | false
";

#[test]
fn stamps_in_range_are_printable(rt: HostRuntime) -> Result<(), Fail> {
    for row in &rows(rt.alloc(), PRINTABLE)? {
        let is_printable = printable(stamp_of(*row)?);
        assert_eq!(rt; is_printable, number::<bool>(row.cell(2))?, "{row}");
    }
    Ok(())
}

/// Moments, with the seconds and nanoseconds of their stamps.
const MOMENTS: &str = "
    0                    | 0 0
    999999999            | 0 999999999
    1000000000           | 1 0
    1700000000123456789  | 1700000000 123456789
    18446744073709551615 | 18446744073 709551615
";

#[test]
fn moments_are_stamps(rt: HostRuntime) -> Result<(), Fail> {
    for row in &rows(rt.alloc(), MOMENTS)? {
        let stamp = of_moment(number(row.cell(0))?);
        assert_eq!(rt; parts(rt.alloc(), stamp)?.as_str(), row.cell(1), "{row}");
    }
    Ok(())
}

/// Texts, and the nanoseconds of their spans.
const SPANS: &str = r#"
    1ms                            | 1000000
    1s                             | 1000000000
    1m                             | 60000000000
    1h                             | 3600000000000
    0s                             | 0
    000h                           | 0
    007ms                          | 7000000
    00000000000000000000000000001s | 1000000000
    1000000000ms                   | 1000000000000000
    1000000000s                    | 1000000000000000000
    307445734m                     | 18446744040000000000
    307445735m                     | 18446744073709551615
    5124095h                       | 18446742000000000000
    5124096h                       | 18446744073709551615
    1000000000h                    | 18446744073709551615
    1000000001s                    | bad
    4294967297s                    | bad
    18446744073709551617s          | bad
    ""                             | bad
    s                              | bad
    ms                             | bad
    5                              | bad
    +5s                            | bad
    -5s                            | bad
    5 s                            | bad
    " 5s"                          | bad
    5S                             | bad
    5us                            | bad
    5mms                           | bad
    1h5m                           | bad
"#;

/// A span's nanoseconds, where the text spells one.
fn span_text(alloc: Global, text: &str) -> Result<String, AllocError> {
    match read_span(text) {
        Ok(nanos) => format!(in alloc; "{nanos}"),
        Err(BadTime) => String::from_str(alloc, "bad"),
    }
}

#[test]
fn spans_are_read(rt: HostRuntime) -> Result<(), Fail> {
    for row in &rows(rt.alloc(), SPANS)? {
        let span = span_text(rt.alloc(), unquoted(row.cell(0)))?;
        assert_eq!(rt; span.as_str(), row.cell(1), "{row}");
    }
    Ok(())
}
