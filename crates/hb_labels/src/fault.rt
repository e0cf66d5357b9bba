//! Why no selector was read.

/// The text spells no selector, or memory ran out.
#[derive(Clone, Copy, Debug, PartialEq, Eq)]
pub enum SelectorFault {
    BadSelector,
    NoMemory,
}
