//! What begins some bytes.
ghost use Rattle.hb_frame.specs.Reader.{Begins};

use crate::frame::{BODY, CANCEL};

/// What begins some bytes.
#[derive(Clone, Copy, Debug)]
pub enum Front<'a> {
    /// A whole frame, and what comes after it, in place.
    Frame {
        kind: u8,
        body: &'a [u8],
        after: &'a [u8],
    },
    /// Nothing, or a frame that is cut short.
    NeedMore,
    /// A kind above 3.
    BadKind {
        kind: u8,
    },
    /// A body of more than 65,536 bytes.
    TooLong {
        length: u32,
    },
}

/// What begins the bytes. The cost does not grow with their number.
pub fn front_of(bytes: &[u8]) -> Front<'_>
    ensures front { Begins bytes.now result }
{
    match bytes {
        [kind, ..] if *kind > CANCEL => Front::BadKind { kind: *kind },
        [kind, a, b, c, d, rest @ ..] => {
            let length = u32::from_be_bytes([*a, *b, *c, *d]);
            let size = length as usize;
            if size > BODY {
                return Front::TooLong { length };
            }
            if size > rest.len() {
                return Front::NeedMore;
            }
            let (body, after) = rest.split_at(size);
            Front::Frame {
                kind: *kind,
                body,
                after,
            }
        }
        _ => Front::NeedMore,
    }
}
