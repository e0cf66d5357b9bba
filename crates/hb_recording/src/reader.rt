//! The responses of a recording, one after another.
ghost use Rattle.std.specs.Prelude.{◌≡◌, ◌≢◌, ◌↔◌, ◌-◌, ℕ, List, [], ◌++◌, length};
ghost use Rattle.hb_flow.specs.declared.response.GetFlowsResponse.{GetFlowsResponse};
ghost use Rattle.hb_recording.specs.Recording.{Recorded, IsBadAfter};
ghost use Rattle.hb_recording.specs.Reading.{HasGiven, given_by, IsFurther, ReadsMessage};
ghost use Rattle.hb_frame.specs.Frames.{message_frame};
ghost use Rattle.hb_frame.specs.Cut.{StartsFrame};

use crate::fits::fits_frame;
use hb_flow::GetFlowsResponse;
use hb_frame::{Front, MESSAGE, front_of};
use hb_schema::DecodeFault;
use std::alloc::Global;
use std::marker::Model;

/// What a recording has next.
#[derive(Clone, Copy, Debug, PartialEq, Eq)]
pub enum Next {
    /// A response, which was read in the place of the caller's.
    Response,
    /// Nothing: all responses were given.
    End,
    /// The frame that starts at this place of the file, in bytes, is not whole, is refused, or its
    /// message is bad.
    Bad { at: u64 },
    /// Memory was refused.
    NoMemory,
}

/// Reads a file as a recording.
#[derive(Drop)]
pub struct RecordingReader<'a> {
    alloc: Global,
    file: &'a [u8],
    rest: &'a [u8],
    scratch: Vec<u8>,
}

impl<'a> Model for RecordingReader<'a> {
    ghost use Rattle.std.specs.Prelude.{◌≤◌, length};
    ghost use Rattle.hb_recording.specs.Reading.{Reading};

    ghost Value = { Reading };

    ghost view = { λ r. record { file = r.file.now; rest = r.rest.now } };

    ghost invariant = { λ r. length r.rest.now ≤ length r.file.now };
}

impl<'a> RecordingReader<'a> {
    /// A reader of which nothing was asked yet. It takes no memory.
    pub fn new(alloc: Global, file: &'a [u8]) -> RecordingReader<'a>
        ensures stands { HasGiven result [] }
        ensures file { result ≡ record { file = file.now; rest = file.now } }
    {
        RecordingReader {
            alloc,
            file,
            rest: file,
            scratch: Vec::new(alloc),
        }
    }

    /// Reads the next response in the place of `response`, or tells why there is none; then it answers
    /// the same again, and `response` may hold anything. The cost goes by the lengths of the frames that
    /// it passes.
    pub fn next(&mut self, response: &mut GetFlowsResponse) -> Next
        ensures stands { (given : List GetFlowsResponse) → HasGiven self.old given
            → HasGiven self.new (given ++ given_by result response.new) }
        ensures end { (given : List GetFlowsResponse) → HasGiven self.old given
            → result ≢ Next.NoMemory
            → (result ≡ Next.End) ↔ Recorded self.old.file given }
        ensures bad { (given : List GetFlowsResponse) (at : ℕ) → HasGiven self.old given
            → result ≢ Next.NoMemory
            → (result ≡ Next.Bad at) ↔ IsBadAfter self.old.file given at }
        ensures further { IsFurther self.old self.new (given_by result response.new) }
        ensures file { self.new.file ≡ self.old.file }
    {
        while !self.rest.is_empty() {
            let Front::Frame { kind, body, after } = front_of(self.rest) else {
                return Next::Bad { at: self.place() };
            };
            if kind == MESSAGE {
                return self.read(body, after, response);
            }
            self.rest = after;
        }
        Next::End
    }

    /// The place of what was not read yet.
    fn place(&self) -> u64
        ensures { result ≡ length self.now.file - length self.now.rest }
    {
        (self.file.len() - self.rest.len()) as u64
    }

    /// Reads the message that comes next, and what comes after its frame.
    fn read(&mut self, message: &[u8], after: &'a [u8], response: &mut GetFlowsResponse) -> Next
        requires starts { StartsFrame self.old.rest (message_frame message.now) after.now }
        ensures { ReadsMessage message.now after.now self.old self.new response.new result }
    {
        match response.read_in_place(self.alloc, message) {
            Ok(()) => {}
            Err(DecodeFault::NoMemory) => return Next::NoMemory,
            Err(DecodeFault::Malformed { .. }) => return Next::Bad { at: self.place() },
            Err(DecodeFault::BadUtf8 { .. }) => return Next::Bad { at: self.place() },
        }
        match fits_frame(response, &mut self.scratch) {
            Ok(true) => {
                self.rest = after;
                Next::Response
            }
            Ok(false) => Next::Bad { at: self.place() },
            Err(_) => Next::NoMemory,
        }
    }
}
