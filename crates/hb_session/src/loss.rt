//! A stretch that was lost.

/// Neighbouring positions that were found overwritten, after the last record that was read.
#[derive(Clone, Copy)]
pub(crate) struct Loss {
    /// How many they are.
    pub(crate) count: u64,
    /// The moment of the last look that found so.
    pub(crate) moment: u64,
}
