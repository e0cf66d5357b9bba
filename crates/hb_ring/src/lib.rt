//! The ring of a node whose readers are threads of their own. One writer overwrites the oldest of a
//! fixed number of slots; readers look without a lock, and a look that was overtaken says so. A
//! contract sees a writer's pass as the log of all records that were written, and a reader's as its
//! looks and the counts that it has seen. The theorem is `look`'s clause `made` with `retire`'s
//! `stands`: each look has its cause in counts that it loaded itself, and the looks stand for the one
//! log, the writer's, for every interleaving of the threads' single loads and stores.
#![tactic(auto)]

mod ends;
mod passes;
mod ring;
#[cfg(test)]
mod tests;

pub use ends::{RingEye, RingPen};
pub use passes::{ReaderPass, Retired, WriterPass};
pub use ring::Ring;
