//! Why no value could be read.

/// No varint, or no field, starts at this place of the bytes.
#[derive(Clone, Copy, Debug, PartialEq, Eq)]
pub struct Malformed {
    pub at: usize,
}
