//! The messages of the observer service's calls, in the encoding of Protocol Buffers. A contract
//! sees a request as the record of its fields; what bytes read as and how a request is spelled stand
//! in `specs/Requests.antt`. The theorem of the crate is that reading a request is exact, with the
//! first fault at its place, and that what was written is read again. How a call is answered is left
//! to the crates above.
#![tactic(auto)]

mod laws;
mod limits;
mod mask;
mod request;

pub use hb_flow::GetFlowsResponse;
pub use laws::{least_fault, mask_is_kept, read_fits, written_is_read};
pub use limits::LONGEST_NAME;
pub use request::GetFlowsRequest;

#[cfg(test)]
mod tests;
