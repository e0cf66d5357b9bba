//! The messages of a flow and of lost events, and the records that a ring keeps of them, in the
//! encoding of Protocol Buffers. A contract sees a message as the record of its fields; what bytes
//! read as and how a message is spelled stand in `specs/Messages.antt`. The theorem of the crate is
//! that reading is exact, with the first fault at its place, and that what was written is read
//! again. Frames, rings and replies are left to the crates above.
#![tactic(auto)]

mod event;
mod flow;
mod laws;
mod lost_event;
mod message;
mod numbers;
mod parts;
mod response;
mod response_types;
mod stamp;
mod writing;

pub use event::{Event, Lost, event_of, oversize, record_of};
pub use flow::Flow;
pub use laws::{least_fault, read_fits, record_is_read, spelled_fields, written_is_read};
pub use lost_event::{Int32Value, LostEvent};
pub use message::{Message, merge};
pub use parts::{keep_unknown, merge_stamp};
pub use response::GetFlowsResponse;
pub use response_types::ResponseTypes;
pub use writing::{put_number, put_optional, put_unknown};

#[cfg(test)]
mod tests;
