//! Tables of cases as text constants, for tests: a case a line, its cells parted by `|`. A test is
//! proved before it runs, and a text that one loop walks is proved at once, where an array of as
//! many bytes or values takes minutes. Messages and files of frames are written in words. Nothing but
//! tests stands on this crate.
#![tactic(auto)]

mod cells;
mod fault;
mod files;
mod parts;
mod row;
#[cfg(test)]
mod tests;

pub use cells::{bytes, digits, number, unquoted};
pub use fault::CaseFault;
pub use files::frames;
pub use parts::message;
pub use row::{Row, rows};
