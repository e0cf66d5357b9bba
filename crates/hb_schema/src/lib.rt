//! The messages of flows and of the services, from one table: what bytes read as and how a message
//! is spelled is defined once over the rows of the table (`specs/`), and so are the laws. A message
//! in code is a struct, with a row, what it means by that row, and how it takes a field and puts its
//! fields. The theorem of the crate is that reading is exact, with the first fault at its place, and
//! that what was written is read again, whatever the row. Frames, records and calls are left to the
//! crates above.
#![tactic(auto)]

mod fault;
mod laws;
mod message;
mod number;
mod parts;
mod stamp;
mod wrappers;
mod writing;

pub use fault::DecodeFault;
pub use message::{Message, fresh, merge, merge_into, push_message, read, write};
pub use number::Number;
pub use parts::{bytes_of, keep_unknown, push_number, push_packed, push_text, set_text, text_of};
pub use wrappers::{BoolValue, Int32Value, UInt32Value};
pub use writing::{
    put_bytes, put_message, put_messages, put_number, put_numbers, put_optional, put_text,
    put_texts, put_unknown,
};

#[cfg(test)]
mod tests;
