//! A node's side of the observer service: what it makes of the events that it is given. A contract sees a
//! ring as the log of its records. The theorem is `stored` of `ingest`: over any list of events the log
//! grows by exactly the records of what is kept of them (`specs/Kept.antt`).
#![tactic(auto)]

mod ingesting;
mod laws;
#[cfg(test)]
mod tests;

pub use ingesting::{Ingested, ingest};
pub use laws::{kept_is_read, window_is_kept};
