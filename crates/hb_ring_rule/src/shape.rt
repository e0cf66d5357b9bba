//! The shape of a ring.

/// How many records a ring keeps, and how long each may be.
#[derive(Clone, Copy, Debug, PartialEq, Eq)]
pub struct Shape {
    /// How many of the last records it keeps for its readers. It has one slot more, which the writer
    /// may be overwriting.
    pub capacity: u64,
    /// How many words of eight bytes a slot has for a record's bytes. A word for its length stands
    /// before them.
    pub slot_words: u64,
}
