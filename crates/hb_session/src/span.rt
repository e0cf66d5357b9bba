//! A run of positions.

/// Positions from a start on, up to an end where there is one.
#[derive(Clone, Copy)]
pub(crate) struct Span {
    pub(crate) start: u64,
    pub(crate) end: Option<u64>,
}
