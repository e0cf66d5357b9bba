//! How a session fared.

/// How many positions are of each kind that were read forwards, of the window and behind it. A window
/// that is read backwards counts nothing.
#[derive(Clone, Copy, Debug, PartialEq, Eq)]
pub struct Counts {
    /// Records that were read and given.
    pub given: u64,
    /// Records that were read and not given.
    pub skipped: u64,
    /// Positions that were found overwritten.
    pub lost: u64,
}
