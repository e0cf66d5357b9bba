//! The ring of one thread that a node keeps its records in, and its readers. The ring has the last
//! records, each with a position that counts from the first record ever put. A contract sees a ring as
//! what it has `Kept`, and a caller as the log of all records that were put (`StandsFor`). The theorem
//! of the crate is `put`'s clause `done` with `look`'s `looked`: a look at a position finds exactly what
//! the log has there, and the looks of a reader stand for the log.
#![tactic(auto)]

mod eye;
mod reader;
mod ring;
#[cfg(test)]
mod tests;

pub use eye::ListEye;
pub use reader::ListReader;
pub use ring::ListRing;
