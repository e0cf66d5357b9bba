//! What a client sends.
ghost use Rattle.std.specs.Prelude.{◌≡◌, ◌↔◌, ℕ, List, [], ◌++◌, IfOk, Some, None};
ghost use Rattle.std.specs.Option.{ForSome};
ghost use Rattle.hb_edge.specs.Link.{HasMoved};
ghost use Rattle.hb_session.specs.declared.turn.Turn.{Turn};
ghost use Rattle.hb_frame.specs.Frames.{Frame};
ghost use Rattle.hb_frame.specs.Reader.{HasRead};
ghost use Rattle.hb_session.specs.Clients.{unheard, HasHeard, IsHeardOf, heard_of, Stops, IsEndedFor, HasAnswered, IsInputFor};

use crate::{InputFault, Turn};
use hb_edge::{Link, Moved};
use hb_frame::{CANCEL, FrameReader, Next};
use hb_wire::NoMemory;
use std::alloc::Global;
use std::marker::Model;

/// The most bytes of one read.
const PIECE: usize = 4_096;

/// The buffer of a read, and what the last read answered.
#[derive(Drop)]
pub(crate) struct Inbox {
    buffer: Vec<u8>,
    last: Moved,
}

impl Model for Inbox {
    ghost use Rattle.std.specs.Prelude.{◌≡◌, length};
    ghost use Rattle.hb_edge.specs.Link.{ReadWithin, moved_of};
    ghost use Rattle.hb_session.specs.Clients.{Heard, longest_piece};

    ghost Value = { Heard };

    ghost view = { λ i. record { last = i.last; piece = moved_of i.buffer.items i.last } };

    ghost invariant = { λ i. (length i.buffer.items ≡ longest_piece)
        × ReadWithin i.last longest_piece };
}

impl Inbox {
    /// Nothing was read.
    pub(crate) fn new(alloc: Global) -> Result<Inbox, NoMemory>
        ensures unheard { IfOk result (λ inbox. inbox ≡ unheard) }
    {
        let Ok(buffer) = vec![in alloc; 0u8; PIECE] else {
            return Err(NoMemory);
        };
        Ok(Inbox {
            buffer,
            last: Moved::NotYet,
        })
    }

    /// The bytes that the last read gave.
    fn piece(&self) -> &[u8]
        ensures piece { result.now ≡ self.now.piece }
    {
        match self.last {
            Moved::Took(count) => &self.buffer[..count],
            Moved::NotYet | Moved::End | Moved::Failed => b"",
        }
    }

    /// Reads once, unless the end was read.
    fn read<L: Link>(&mut self, link: &mut L)
        ensures heard { HasHeard self.old self.new (L.shown link.old) (L.shown link.new) }
        ensures moved { HasMoved L.shown L.held L.after L.fixed link.old link.new
            self.new.piece [] }
        ensures exact { ForSome (L.held link.old) (λ h.
            IsHeardOf L.answer link.old h self.old self.new
            × (link.new ≡ heard_of L.after self.old.last link.old)) }
    {
        if self.last != Moved::End {
            self.last = link.poll_read(&mut self.buffer);
        }
    }

    /// Reads once, and tells the answer that a session ends with for what it heard, if it does: for a
    /// frame or a fault of the client, for a fault of the link, or for want of memory.
    pub(crate) fn hear<L: Link>(&mut self, input: &mut FrameReader, link: &mut L) -> Option<Turn>
        ensures heard { HasHeard self.old self.new (L.shown link.old) (L.shown link.new) }
        ensures moved { HasMoved L.shown L.held L.after L.fixed link.old link.new
            self.new.piece [] }
        ensures exact { ForSome (L.held link.old) (λ h.
            IsHeardOf L.answer link.old h self.old self.new
            × (link.new ≡ heard_of L.after self.old.last link.old)) }
        ensures input { IsInputFor input.old input.new self.new.piece result }
        ensures ended { IsEndedFor input.old self.new result }
    {
        self.read(link);
        if self.last == Moved::Failed {
            return Some(Turn::LinkFault);
        }
        let Ok(()) = input.feed(self.piece()) else {
            return Some(Turn::NoMemory);
        };
        stop_of(input, self.last)
    }
}

/// The answer that a session ends with for the next frame of its client or for a fault, if there is
/// one, where the last read answered this.
fn stop_of(input: &mut FrameReader, last: Moved) -> Option<Turn>
    ensures stops { (answer : Turn) → (result ≡ Some answer) ↔ Stops input.old last answer }
    ensures stays { result ≡ None → (input.new.held ≡ input.old.held)
        × (input.new.place ≡ input.old.place) }
    ensures gave { HasAnswered input.old input.new }
    ensures reads { (bytes : List ℕ) (given : List Frame) → HasRead input.old bytes given
        → (more : List Frame) × HasRead input.new bytes (given ++ more) }
{
    match input.next() {
        Next::Frame { kind: CANCEL, .. } => Some(Turn::Cancelled),
        Next::Frame { at, .. } => Some(Turn::BadInput(InputFault::Extra { at })),
        Next::BadKind { at, kind } => Some(Turn::BadInput(InputFault::BadKind { at, kind })),
        Next::TooLong { at, length } => Some(Turn::BadInput(InputFault::TooLong { at, length })),
        Next::NeedMore if last == Moved::End && !input.whole() => {
            Some(Turn::BadInput(InputFault::Cut { at: input.place() }))
        }
        Next::NeedMore => None,
    }
}
