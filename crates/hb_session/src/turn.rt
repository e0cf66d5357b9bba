//! What a turn of a session answers.
ghost use Rattle.std.specs.Prelude.{◌≡◌};
ghost use Rattle.hb_session.specs.Sessions.{ended_by};

use hb_wire::Text;

/// Why no session was opened.
#[derive(Debug, Drop)]
pub enum OpenFault {
    /// The request is refused, with this status code and text.
    BadRequest { code: u32, text: Text },
    /// Memory was refused.
    NoMemory,
}

/// What is wrong in what a client sent. Each `at` is the place of a frame's first byte in all bytes
/// that came.
#[derive(Clone, Copy, Debug, PartialEq, Eq)]
pub enum InputFault {
    /// The frame has a kind above 3.
    BadKind { at: u64, kind: u8 },
    /// The frame has a body of more than 65,536 bytes.
    TooLong { at: u64, length: u32 },
    /// A call begins with another frame than one that names its path.
    NotCall { at: u64 },
    /// Behind the frame of a call there is another one than that of its request.
    NotMessage { at: u64 },
    /// The bytes ended within the frame.
    Cut { at: u64 },
    /// A frame came while a call was answered, and cancels nothing.
    Extra { at: u64 },
}

/// After each answer but `More` and `Idle` the session has ended, and every later turn repeats it.
#[derive(Clone, Copy, Debug, PartialEq, Eq)]
pub enum Turn {
    /// Bytes were taken by the link, or a record was read or found overwritten.
    More,
    /// Bytes wait, and the link takes none now; or the reply follows, and no record is there yet.
    Idle,
    /// The reply has ended, and all its bytes were taken.
    Done,
    /// The client cancelled the call.
    Cancelled,
    /// The client sent what has no place in a call.
    BadInput(InputFault),
    /// A call on the link failed.
    LinkFault,
    /// The reader has made 2^62 looks, and may make no more.
    Spent,
    /// Memory was refused.
    NoMemory,
}

impl Turn {
    /// The answer that a session has ended with after this one, if it has.
    pub(crate) fn ending(self) -> Option<Turn>
        ensures { result ≡ ended_by self }
    {
        match self {
            Turn::More | Turn::Idle => None,
            Turn::Done
            | Turn::Cancelled
            | Turn::BadInput(_)
            | Turn::LinkFault
            | Turn::Spent
            | Turn::NoMemory => Some(self),
        }
    }
}
