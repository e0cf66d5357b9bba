//! Frames out of bytes that come in pieces.
ghost use Rattle.std.specs.Prelude.{◌≡◌, ◌↔◌, ℕ, List, [], ◌+◌, ◌*◌, ◌≤◌, ◌++◌, length, take, drop, IsTrue, IsOk, IfOk, OnOk, OnErr};
ghost use Rattle.hb_frame.specs.Frames.{Frame, longest_body, longest_frame};
ghost use Rattle.hb_frame.specs.Reader.{HasRead, Answers, HasStayed, GoesOn, HasGiven, place_of};

use crate::NoMemory;
use crate::frame::HEAD;
use crate::front::{Front, front_of};
use std::alloc::Global;
use std::marker::Model;

#[cfg(test)]
mod tests;

/// What a reader gives next. Each `at` is the place of the frame's first byte in all bytes fed.
#[derive(Clone, Copy, Debug, PartialEq, Eq)]
pub enum Next {
    /// A frame of this kind, whose body, of `length` bytes, is `body` now.
    Frame { kind: u8, at: u64, length: u32 },
    /// More bytes have to come.
    NeedMore,
    /// The frame that begins at this place has a kind above 3.
    BadKind { at: u64, kind: u8 },
    /// The frame that begins at this place has a body of more than 65,536 bytes.
    TooLong { at: u64, length: u32 },
}

/// Cuts bytes into frames, whatever the pieces that they come in. What it gave is let go: it stores
/// at most twice the bytes that it was fed and has not given, and twice the longest frame. The room
/// that it took for more stays.
#[derive(Drop)]
pub struct FrameReader {
    bytes: Vec<u8>,
    given: usize,
    body: usize,
    place: u64,
}

impl Model for FrameReader {
    ghost use Rattle.std.specs.Prelude.{◌≤◌, ◌+◌, ◌-◌, ◌*◌, length, take, drop};
    ghost use Rattle.hb_frame.specs.Frames.{longest_frame};
    ghost use Rattle.hb_frame.specs.Reader.{Reader};

    ghost Value = { Reader };

    ghost view = { λ r. record {
      held = drop r.given r.bytes.items;
      place = r.place;
      body = drop (r.given - r.body) (take r.given r.bytes.items);
      kept = r.given;
    } };

    ghost invariant = { λ r. (r.body ≤ r.given) × (r.given ≤ length r.bytes.items)
        × (r.given ≤ length r.bytes.items - r.given + 2 * longest_frame) };
}

impl FrameReader {
    /// A reader that was fed nothing. It takes no memory.
    pub fn new(alloc: Global) -> Result<FrameReader, NoMemory>
        ensures ok { IsOk result }
        ensures reads { IfOk result (λ reader. HasRead reader [] []) }
        ensures fresh { IfOk result
            (λ reader. reader ≡ record { held = []; place = 0; body = []; kept = 0 }) }
    {
        Ok(FrameReader {
            bytes: Vec::new(alloc),
            given: 0,
            body: 0,
            place: 0,
        })
    }

    /// Takes the next piece of the bytes, of any length. It is copied once, and again as room grows.
    /// At `Err` the reader is as before. What is fed behind a fault is kept too: feed no more then.
    pub fn feed(&mut self, piece: &[u8]) -> Result<(), NoMemory>
        ensures ok { OnOk result
            (self.new ≡ record self.old { held = self.old.held ++ piece.now }) }
        ensures reads { OnOk result ((fed : List ℕ) (given : List Frame)
            → HasRead self.old fed given → HasRead self.new (fed ++ piece.now) given) }
        ensures err { OnErr result (self.new ≡ self.old) }
    {
        self.bytes.extend_from_slice(piece)?;
        Ok(())
    }

    /// The next frame, or why there is none. After a fault it answers the same for ever, whatever it
    /// is fed. The cost of a call does not grow with what it holds, but for the bytes that it moves:
    /// in all these are no more than those that it gave.
    pub fn next(&mut self) -> Next
        ensures exact { (next : Next) → (result ≡ next) ↔ Answers self.old next }
        ensures goes_on { GoesOn self.old self.new result }
        ensures lets_go { self.new.kept ≤ length self.new.held + 2 * longest_frame }
        ensures reads { (fed : List ℕ) (given : List Frame) → HasRead self.old fed given
            → HasGiven self.new fed given result }
    {
        self.let_go();
        let at = self.place;
        match front_of(self.held()) {
            Front::Frame { kind, body, .. } => {
                let length = body.len() as u32;
                self.give(length);
                Next::Frame { kind, at, length }
            }
            Front::NeedMore => Next::NeedMore,
            Front::BadKind { kind } => Next::BadKind { at, kind },
            Front::TooLong { length } => Next::TooLong { at, length },
        }
    }

    /// The body of the frame that `next` gave last, until it is called again; empty before.
    pub fn body(&self) -> &[u8]
        ensures body { result.now ≡ self.now.body }
    {
        &self.bytes[self.given - self.body..self.given]
    }

    /// Whether no byte of a further frame was fed.
    pub fn whole(&self) -> bool
        ensures whole { IsTrue result ↔ (self.now.held ≡ []) }
    {
        self.held().is_empty()
    }

    /// The place in all bytes fed of the first byte that it has not given. It stops at 2^64 - 1.
    pub fn place(&self) -> u64
        ensures place { result ≡ self.now.place }
    {
        self.place
    }

    /// The bytes that it was fed and has not given.
    fn held(&self) -> &[u8]
        ensures { result.now ≡ self.now.held }
    {
        &self.bytes[self.given..]
    }

    /// Drops the last body, and the bytes that it gave once they are no fewer than those that it holds.
    fn let_go(&mut self)
        ensures stayed { HasStayed self.old self.new }
        ensures kept { self.new.kept ≤ length self.new.held }
    {
        let held = self.held().len();
        if self.given >= held {
            self.bytes.copy_within(self.given.., 0);
            self.bytes.truncate(held);
            self.given = 0;
        }
        self.body = 0;
    }

    /// Gives the frame that begins what it holds, whose body has this length.
    fn give(&mut self, body: u32)
        requires whole { 5 + body ≤ length self.old.held }
        requires short { body ≤ longest_body }
        requires kept { self.old.kept ≤ length self.old.held }
        ensures { self.new ≡ record {
          held = drop (5 + body) self.old.held;
          place = place_of (self.old.place + (5 + body));
          body = take body (drop 5 self.old.held);
          kept = self.old.kept + (5 + body);
        } }
    {
        let size = HEAD + body as usize;
        self.given += size;
        self.body = body as usize;
        self.place = self.place.saturating_add(size as u64);
    }
}
