//! Files read whole from a shelf, and bytes written whole to a sink. A contract sees what the shelf
//! tells of its files and what the sink holds. The theorem of reading is `ok` with `err`: at `Ok` the
//! bytes are all of the file, and each fault comes only where its case of `IsFaultOf` holds. What a
//! file's bytes mean is left to the crates above, which say by the same relation where they are bad.
#![tactic(auto)]

mod fault;
mod reading;
#[cfg(test)]
mod tests;
mod writing;

pub use fault::FileFault;
pub use reading::{LARGEST_FILE, read_whole};
pub use writing::{WriteFailed, write_whole};
