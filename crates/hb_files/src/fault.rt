//! What is wrong with a file.

/// What is wrong with a file.
#[derive(Clone, Copy, Debug, PartialEq, Eq)]
pub enum FileFault {
    /// A read of it failed.
    ReadFailed,
    /// It has more than 2^30 bytes.
    TooLarge,
    /// The record that starts at this place is bad.
    BadRecord { at: u64 },
    /// Memory was refused.
    NoMemory,
}
