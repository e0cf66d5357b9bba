//! Reading a varint.

ghost use Rattle.std.specs.Prelude.{◌≡◌, ℕ, ◌+◌, ◌*◌, ◌^◌, ◌<◌, ◌≤◌, length, drop, slice_range, IfSome, IfOk, IfErr};
ghost use Rattle.hb_wire.specs.Varint.{IsVarint};
ghost use Rattle.hb_wire.specs.Reading.{varint_from, varint_at, ReadsAt};

use crate::malformed::Malformed;

/// The varint at the front of `bytes`, at most `more` bytes after its first, and how many bytes it
/// takes.
#[tactic(auto, using(crate::proofs::Limits::read_rules), unfolding(crate::specs::Reading::varint_from))]
fn varint_within(bytes: &[u8], more: u32) -> Option<(u64, usize)>
    requires { more ≤ 9 }
    ensures value { result ≡ varint_from more bytes.now }
    ensures below { IfSome result (λ r. r.0 < 2 * 128 ^ more) }
    ensures within { IfSome result (λ r. r.1 ≤ length bytes.now) }
{
    match bytes {
        [] => None,
        [first, rest @ ..] => {
            let first = u64::from(*first);
            if more == 0 {
                return if first < 2 { Some((first, 1)) } else { None };
            }
            if first < 128 {
                return Some((first, 1));
            }
            let (high, size) = varint_within(rest, more - 1)?;
            Some((first - 128 + 128 * high, size + 1))
        }
    }
}

/// The varint at the front of `bytes`, and how many bytes it takes.
#[inline]
#[tactic(auto, unfolding(crate::specs::Reading::varint_at, crate::specs::Reading::varint_from))]
pub(crate) fn varint_front(bytes: &[u8]) -> Option<(u64, usize)>
    ensures value { result ≡ varint_at bytes.now }
    ensures below { IfSome result (λ r. r.0 < 2 ^ 64) }
    ensures within { IfSome result (λ r. r.1 ≤ length bytes.now) }
{
    match bytes {
        [only, ..] if *only < 128 => Some((u64::from(*only), 1)),
        _ => varint_within(bytes, 9),
    }
}

/// The varint at `at` (Protocol Buffers encoding guide, "Base 128 Varints"), and where it ends: at
/// most ten bytes of a number of 64 bits. A longer spelling than needed is read too.
///
/// Malformed at `at` where no varint starts there.
#[inline]
pub fn read_varint(bytes: &[u8], at: usize) -> Result<(u64, usize), Malformed>
    requires { at < length bytes.now }
    ensures found { IfOk result (λ r. (at < r.1) × (r.1 ≤ length bytes.now)
        × IsVarint (slice_range bytes.now at r.1) r.0) }
    ensures malformed { IfErr result (λ e. (e.at ≡ at) × ((n end : ℕ)
        → IsVarint (slice_range bytes.now at end) n → ⊥)) }
    ensures reads { ReadsAt (λ v. v) at result (varint_at (drop at bytes.now)) }
{
    match varint_front(&bytes[at..]) {
        Some((value, size)) => Ok((value, at + size)),
        None => Err(Malformed { at }),
    }
}
