//! The rule of a ring of words that one writer overwrites while readers read it without a lock. It is
//! about one `atomic_table`, whose steps are single loads and stores, and it holds between any two of
//! them, whatever the order in which threads make them. The theorem is `RuleOf` (`specs/Rule.antt`):
//! each step that a call of `RingTable` makes keeps it. hb_ring puts the steps together to whole writes
//! and whole looks.
#![tactic(auto)]

mod rule;
mod seats;
mod shape;
mod table;

pub use rule::RingRule;
pub use seats::{ReaderSeat, View, WriterSeat};
pub use shape::Shape;
pub use table::RingTable;
