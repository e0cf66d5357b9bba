//! The limits of every ring.

/// The most bytes of a record that any ring takes.
pub const LONGEST_RECORD: usize = 65_024;

/// How many records a ring takes, and how many looks a reader makes. It is small enough that the sum
/// of a few such counts fits 64 bits.
pub const MOST_RECORDS: u64 = 1 << 62;
