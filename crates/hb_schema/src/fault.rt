//! Why a message could not be read.

/// What is wrong with a message's bytes, the first fault by its place. A place is a number of
/// bytes, counted from the start of the message that was to be read.
#[derive(Clone, Copy, Debug, PartialEq, Eq)]
pub enum DecodeFault {
    /// No field, or no varint of a packed list, starts at this place.
    Malformed { at: usize },
    /// The text that starts at this place is not UTF-8.
    BadUtf8 { at: usize },
    /// Memory was refused.
    NoMemory,
}
