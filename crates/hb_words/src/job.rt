//! What a command asks for.

use hb_api::GetFlowsRequest;
use hb_wire::Text;

/// What a command asks for.
#[derive(Debug, Drop)]
pub enum Job {
    Observe(Observe),
}

/// `observe FILE`: a node whose ring took a recording is asked for its flows.
#[derive(Debug, Drop)]
pub struct Observe {
    /// The name of the recording.
    pub file: Text,
    /// How many of its newest records the node's ring answers with.
    pub capacity: u64,
    /// The bytes of a record in the ring, at most.
    pub slot: usize,
    /// The name of the node.
    pub node: Text,
    /// How many flows are asked for, and from which end.
    pub request: GetFlowsRequest,
}
