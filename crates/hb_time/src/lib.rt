//! Stamps as RFC 3339 texts, and spans. A contract sees a stamp as its seconds and nanoseconds, a
//! text as its bytes. The theorem is `exact` of `read_rfc3339`: each text is read as the one stamp
//! that it spells, by a calendar that counts the days of years and months, and one that spells none
//! is not read. What `write_rfc3339` writes is read as its stamp. The civil dates are `jiff`'s.
#![tactic(auto)]

mod bad_time;
mod clock;
mod day;
mod digits;
mod laws;
mod offset;
mod reading;
mod span;
mod stamp;
mod writing;

pub use bad_time::BadTime;
pub use laws::{one_text, reads_back};
pub use reading::read_rfc3339;
pub use span::read_span;
pub use stamp::{Stamp, of_moment, printable};
pub use writing::write_rfc3339;

#[cfg(test)]
mod tests;
