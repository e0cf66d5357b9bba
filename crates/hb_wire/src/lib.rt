//! The wire format of Protocol Buffers, in the profile without groups: varints, tags and fields,
//! read in place and written at the end of a vector. A contract sees bytes as lists, a field as a
//! `Piece`, a `Text` and a `Seq` as a list. The theorem of the crate is that `read_varint` and
//! `next_field` answer exactly where a varint or a field is spelled, with its value and its end.
//! Which fields a message has is left to the crates above.
#![tactic(auto)]

mod field;
mod fields;
mod laws;
mod malformed;
mod no_memory;
mod seq;
mod text;
mod varint;
mod writing;

pub use field::Field;
pub use fields::next_field;
pub use laws::{canonical_field, one_field, one_varint, shortest_varint};
pub use malformed::Malformed;
pub use no_memory::NoMemory;
pub use seq::Seq;
pub use text::Text;
pub use varint::read_varint;
pub use writing::{write_body, write_number, write_tag, write_varint};

#[cfg(test)]
mod tests;
