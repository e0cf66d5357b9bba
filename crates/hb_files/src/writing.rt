//! Writing bytes whole.
ghost use Rattle.std.specs.Prelude.{◌≡◌, ◌≤◌, ◌++◌, ℕ, take, Some, OnOk, OnErr};
ghost use Rattle.std.specs.Option.{ForSome};
ghost use Rattle.hb_edge.specs.Causes.{Rose};

use hb_edge::{Sink, Sunk};

/// A write failed, after a front of the bytes was taken.
#[derive(Clone, Copy, Debug, PartialEq, Eq)]
pub struct WriteFailed;

/// Writes all the bytes, in as many writes as the sink asks for.
pub fn write_whole<K: Sink>(out: &mut K, bytes: &[u8]) -> Result<(), WriteFailed>
    ensures ok { OnOk result (ForSome (K.held out.old)
        (λ held. K.held out.new ≡ Some (held ++ bytes.now))) }
    ensures cause { OnErr result (Rose (K.faults out.old) (K.faults out.new)) }
    ensures err { OnErr result (ForSome (K.held out.old) (λ held.
        (count : ℕ) × (K.held out.new ≡ Some (held ++ take count bytes.now)))) }
    ensures later { K.faults out.old ≤ K.faults out.new }
    ensures fixed { K.fixed out.new ≡ K.fixed out.old }
{
    let mut at = 0;
    while at < bytes.len() {
        match out.write(&bytes[at..]) {
            Sunk::Took(count) => at += count,
            Sunk::Failed => return Err(WriteFailed),
        }
    }
    Ok(())
}
