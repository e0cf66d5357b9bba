//! The words of a command line, and the jobs that they mean. A contract sees words as lists of bytes;
//! `specs/Words.antt` computes from them a job or none, and the theorem is in the clauses of
//! `read_words`: a job is read exactly where the words mean it, and words are bad exactly where they
//! mean none. What is done for a job is left to the program.
#![tactic(auto)]

mod fault;
mod job;
mod laws;
mod options;
#[cfg(test)]
mod tests;
mod values;
mod words;

pub use fault::WordsFault;
pub use job::{Job, Observe};
pub use laws::job_limits;
pub use words::read_words;
