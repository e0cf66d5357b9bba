//! The outside world as the rest of the program sees it: files to read (`Shelf`), an end to write
//! to (`Sink`), a connection to a far side (`Link`) and a clock (`Clock`), each a trait with a form
//! in memory and, but for `Link`, an adapter to the system. A contract sees the files, the bytes
//! and the moment where the object tells them, of a shelf, a sink or a link the count of its calls
//! that failed, and of a link those of its reads and writes that had to wait. The forms in memory
//! tell all; the adapters tell nothing but that count.
#![tactic(auto)]

mod clock;
mod file_shelf;
mod link;
mod mem_link;
mod mem_shelf;
mod mem_sink;
mod no_memory;
mod real_clock;
mod set_clock;
mod shelf;
mod sink;
mod stdout_sink;
#[cfg(test)]
mod tests;

pub use clock::Clock;
pub use file_shelf::FileShelf;
pub use link::{Link, Moved};
pub use mem_link::MemLink;
pub use mem_shelf::MemShelf;
pub use mem_sink::MemSink;
pub use no_memory::NoMemory;
pub use real_clock::RealClock;
pub use set_clock::SetClock;
pub use shelf::{Shelf, Shelved};
pub use sink::{Sink, Sunk};
pub use stdout_sink::StdoutSink;
