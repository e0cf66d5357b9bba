//! What a reader of a ring may be told, and a writer. A ring keeps the last records of a log, a list
//! of records of which each has its index as its position. `Look` is one look of a reader at one
//! position, and `Keep` the writer's next record; the rings themselves are other crates. A contract
//! sees a reader as the looks that it made and the counts that it has seen (`Reader`). The theorem is
//! in `look`'s clauses: each look is listed, and has its cause in counts that it loaded itself; so no
//! look goes back (`no_look_goes_back`).
#![tactic(auto)]

mod buffer;
mod keep;
mod laws;
mod limits;
mod look;
mod no_memory;
#[cfg(test)]
mod tests;

pub use buffer::Record;
pub use keep::{Keep, Put};
pub use laws::{no_look_goes_back, one_finding, stands_for_more};
pub use limits::{LONGEST_RECORD, MOST_RECORDS};
pub use look::{Look, Looked};
pub use no_memory::NoMemory;
