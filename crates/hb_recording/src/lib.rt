//! Recordings: frames one after another, of which each message is a response of a node. A contract sees
//! a recording as the list of its responses, or as its first bad place (`specs/Recording.antt`), and a
//! reader as the file and the part of it that was not read yet. The theorem is `next` of
//! `RecordingReader`: it gives the responses in order, `End` exactly behind the last of a recording, and
//! `Bad` exactly behind the last before the first bad record, with its place.
#![tactic(auto)]

mod fits;
mod laws;
mod reader;
#[cfg(test)]
mod tests;

pub use laws::{events_fit, one_reading, one_spelling};
pub use reader::{Next, RecordingReader};
