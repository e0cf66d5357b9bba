//! The limits of the calls.

/// The bytes of a node's name, at most.
pub const LONGEST_NAME: usize = 63;
