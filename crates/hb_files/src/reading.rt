//! Reading a file whole.
ghost use Rattle.std.specs.Prelude.{◌≡◌, ◌≤◌, IfOk, IfErr};
ghost use Rattle.hb_edge.specs.Causes.{Rose};
ghost use Rattle.hb_files.specs.Files.{IsWhole};
ghost use Rattle.hb_files.specs.Faults.{IsFaultOf};

use crate::FileFault;
use hb_edge::{Shelf, Shelved};
use std::alloc::Global;

/// The bytes of a file, at most.
pub const LARGEST_FILE: usize = 1 << 30;

/// How many bytes one read asks for.
const PIECE: usize = 1 << 16;

/// All the bytes of the file, at most 2^30. It asks for 64 KiB a read, and holds the bytes once.
pub fn read_whole<S: Shelf>(alloc: Global, shelf: &mut S, name: &str) -> Result<Vec<u8>, FileFault>
    ensures ok { IfOk result (λ bytes. IsWhole (S.files shelf.old) name.now bytes.items) }
    ensures err { IfErr result (IsFaultOf (λ _ _. ⊥) (S.files shelf.old) name.now
        (Rose (S.faults shelf.old) (S.faults shelf.new))) }
    ensures later { S.faults shelf.old ≤ S.faults shelf.new }
    ensures kept { S.files shelf.new ≡ S.files shelf.old }
    ensures fixed { S.fixed shelf.new ≡ S.fixed shelf.old }
{
    let Ok(mut buffer) = vec![in alloc; 0u8; PIECE] else {
        return Err(FileFault::NoMemory);
    };
    let mut bytes: Vec<u8> = Vec::new(alloc);
    while bytes.len() <= LARGEST_FILE {
        match shelf.read(name, bytes.len() as u64, buffer.as_mut_slice()) {
            Shelved::Took(count) => {
                if bytes.extend_from_slice(&buffer[..count]).is_err() {
                    return Err(FileFault::NoMemory);
                }
            }
            Shelved::End => return Ok(bytes),
            Shelved::Failed => return Err(FileFault::ReadFailed),
        }
    }
    Err(FileFault::TooLarge)
}
