//! Why no time was read.

/// The text spells no stamp, or no span.
#[derive(Clone, Copy, Debug, PartialEq, Eq)]
pub struct BadTime;
