//! The bytes of a frame.
ghost use Rattle.std.specs.Prelude.{◌≡◌, ◌≤◌, ◌++◌, length, take, OnOk, OnErr};
ghost use Rattle.hb_frame.specs.Frames.{frame, greatest_kind, longest_body};

use crate::NoMemory;

/// The kind of a frame that is a message.
pub const MESSAGE: u8 = 0;

/// The kind of a frame that ends a call.
pub const STATUS: u8 = 2;

/// The greatest kind of a frame, that of one which cancels a call. Kind 1 begins one.
pub const CANCEL: u8 = 3;

/// The length of what stands before a frame's body, in bytes: its kind and the body's length.
pub(crate) const HEAD: usize = 5;

/// The greatest length of a frame's body, in bytes.
pub const BODY: usize = 65_536;

/// The parts of a frame. What stood there before stays.
fn put_parts(out: &mut Vec<u8>, kind: u8, body: &[u8]) -> Result<(), NoMemory>
    requires body { length body.now ≤ longest_body }
    ensures ok { OnOk result (out.new.items ≡ out.old.items ++ frame kind body.now) }
    ensures front { take (length out.old.items) out.new.items ≡ out.old.items }
{
    out.push(kind)?;
    out.extend_from_slice(&(body.len() as u32).to_be_bytes())?;
    out.extend_from_slice(body)?;
    Ok(())
}

/// Appends a frame. The body is copied once. At `Err` nothing is appended.
pub fn put_frame(out: &mut Vec<u8>, kind: u8, body: &[u8]) -> Result<(), NoMemory>
    requires kind { kind ≤ greatest_kind }
    requires body { length body.now ≤ longest_body }
    ensures ok { OnOk result (out.new.items ≡ out.old.items ++ frame kind body.now) }
    ensures err { OnErr result (out.new.items ≡ out.old.items) }
{
    let before = out.len();
    match put_parts(out, kind, body) {
        Ok(()) => Ok(()),
        Err(fault) => {
            out.truncate(before);
            Err(fault)
        }
    }
}
