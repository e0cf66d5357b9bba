//! `hubblet`: the flow services of a node, over recordings. `run` is the program's top call, over
//! whatever shelf, sink and clock it is given; its contract, read with `specs/Observe.antt`, says
//! what each exit status tells of the file and of the output. `main` gives it the system's.
#![tactic(auto)]

mod filling;
mod laws;
mod observe;
mod status;
#[cfg(test)]
mod tests;

use hb_edge::{FileShelf, RealClock, StdoutSink};
pub use laws::window_of_recording;
pub use observe::run;
pub use status::Status;
use std::env;
use std::io::ErrorKind;
use std::process::ExitCode;
use std::rt::Env;

/// Runs the command of the program's words, and tells how it ended.
fn main(rt: HostRuntime) -> ExitCode {
    let status = match words_of(&rt) {
        Ok(words) => run(
            rt.alloc(),
            &words,
            &mut FileShelf::new(rt.alloc(), rt),
            &mut StdoutSink::new(rt),
            &RealClock::new(rt),
        ),
        Err(status) => status,
    };
    tell(&rt, &status);
    ExitCode::from(status.code())
}

/// The words behind the program's name. A word that is not UTF-8 is in no command.
fn words_of<R: Env + AllocGlobal>(rt: &R) -> Result<Vec<String>, Status> {
    match env::args(rt) {
        Ok(words) => words
            .skip(1)
            .collect(rt.alloc())
            .map_err(|_| Status::NoMemory),
        Err(error) if error.kind() == ErrorKind::OutOfMemory => Err(Status::NoMemory),
        Err(_) => Err(Status::BadWords),
    }
}

/// Writes the line of the status to standard error, where there is one. A fault there is passed
/// over: the exit code tells the same.
fn tell<R: Eprint + AllocGlobal>(rt: &R, status: &Status) {
    if status.code() == 0 {
        return;
    }
    if let Ok(line) = status.line(rt.alloc()) {
        let _ = eprintln!(rt; "hubblet: {line}");
    }
}
