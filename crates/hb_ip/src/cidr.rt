//! A block of addresses.

ghost use Rattle.std.specs.Prelude.{◌≡◌, ◌↔◌, ℕ, ◌/◌, ◌-◌, ◌^◌, ◌<◌, Some, IsTrue, decimal};
ghost use Rattle.hb_ip.specs.Blocks.{IsPlain, SpellsCidr, Contains, first_bits, width};

use crate::addr::{Addr, read_addr};

/// A block: the addresses of one family whose first `length` bits are those of `addr`. Its other
/// bits say nothing. A length beyond the family's bits says all of them; `read_cidr` gives none such.
#[derive(Clone, Copy, Debug, PartialEq, Eq)]
pub struct Cidr {
    pub addr: Addr,
    pub length: u8,
}

/// Whether the text is not empty and has neither a sign nor a leading zero.
fn is_plain(text: &[u8]) -> bool
    ensures { IsTrue result ↔ IsPlain text.now }
{
    !matches!(text, [] | [b'+', ..] | [b'0', _, ..])
}

/// A number below 256 in decimal, without sign and leading zeros.
fn read_length(text: &str) -> Option<u8>
    ensures exact { (n : ℕ) → n < 256 → (result ≡ Some n) ↔ (text.now ≡ decimal n) }
{
    if !is_plain(text.as_bytes()) {
        return None;
    }
    text.parse::<u8>().ok()
}

/// The bits of an address.
fn width_of(addr: Addr) -> u8
    ensures { result ≡ width addr }
{
    match addr {
        Addr::V4(_) => 32,
        Addr::V6(_) => 128,
    }
}

/// The block that the text spells (RFC 4632, section 3.1, and RFC 4291, section 2.3): an address,
/// `/` and a length in decimal without leading zeros, at most 32 for IPv4 and 128 for IPv6.
pub fn read_cidr(text: &str) -> Option<Cidr>
    ensures exact { (block : Cidr) → (result ≡ Some block) ↔ SpellsCidr text.now block }
{
    let (front, back) = text.split_once('/')?;
    let addr = read_addr(front)?;
    let length = read_length(back)?;
    if length > width_of(addr) {
        return None;
    }
    Some(Cidr { addr, length })
}

fn first_bits_v4(number: u32, length: u8) -> u32
    ensures { result ≡ first_bits 32 length number }
{
    let rest = 32_u32.saturating_sub(u32::from(length));
    number.checked_shr(rest).unwrap_or(0)
}

fn first_bits_v6(number: u128, length: u8) -> u128
    ensures { result ≡ first_bits 128 length number }
{
    let rest = 128_u32.saturating_sub(u32::from(length));
    number.checked_shr(rest).unwrap_or(0)
}

impl Cidr {
    /// Whether the address is in the block: of its family, with the same first bits.
    pub fn contains(&self, addr: &Addr) -> bool
        ensures within { IsTrue result ↔ Contains self.now addr.now }
    {
        match (self.addr, *addr) {
            (Addr::V4(block), Addr::V4(one)) => {
                first_bits_v4(block, self.length) == first_bits_v4(one, self.length)
            }
            (Addr::V6(block), Addr::V6(one)) => {
                first_bits_v6(block, self.length) == first_bits_v6(one, self.length)
            }
            (Addr::V4(_), Addr::V6(_)) | (Addr::V6(_), Addr::V4(_)) => false,
        }
    }
}
