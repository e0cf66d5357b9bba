//! Frames: a kind, the length of the body as a big-endian u32, and the body. One of kind 0 is gRPC's
//! length-prefixed message without compression (gRPC over HTTP2). The theorem is `FrameReader`'s: in
//! whatever pieces bytes come, the frames that it gives are those that the bytes are cut into
//! (`specs/Cut.antt`, `specs/Reader.antt`), and what it answers to the rest is exact.
#![tactic(auto)]

mod frame;
mod front;
mod laws;
mod no_memory;
mod reader;
#[cfg(test)]
mod tests;

pub use frame::{BODY, CANCEL, MESSAGE, STATUS, put_frame};
pub use front::{Front, front_of};
pub use laws::{faults_stay, one_cause, one_cut};
pub use no_memory::NoMemory;
pub use reader::{FrameReader, Next};
