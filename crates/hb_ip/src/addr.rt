//! An address.

ghost use Rattle.std.specs.Prelude.{◌≡◌, ◌↔◌, Some};
ghost use Rattle.hb_ip.specs.Addresses.{SpellsAddr};

use std::net::IpAddr;
use std::str::FromStr;

/// An internet address, as the number that its bits make, the first bit highest.
#[derive(Clone, Copy, Debug, PartialEq, Eq)]
pub enum Addr {
    V4(u32),
    V6(u128),
}

/// The address that the text spells: IPv4 as four decimal numbers without leading zeros, IPv6 as
/// RFC 4291, section 2.2, has it, also with an IPv4 address at its end. A zone (`%eth0`) and
/// brackets are no part of it.
pub fn read_addr(text: &str) -> Option<Addr>
    ensures exact { (addr : Addr) → (result ≡ Some addr) ↔ SpellsAddr text.now addr }
{
    match IpAddr::from_str(text) {
        Ok(IpAddr::V4(ip)) => Some(Addr::V4(ip.to_bits())),
        Ok(IpAddr::V6(ip)) => Some(Addr::V6(ip.to_bits())),
        Err(_) => None,
    }
}
