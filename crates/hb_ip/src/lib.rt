//! Internet addresses and blocks of them, as texts name them: IPv4 in four decimal numbers, IPv6 in
//! groups of hexadecimal digits with at most one `::` (RFC 4291, 2.2), a block with a length behind
//! `/`. A contract sees an address as its family and its number. The theorem is `exact`: each text
//! is read as the one address or block that it spells, and one that spells none is not read.
#![tactic(auto)]

mod addr;
mod cidr;
#[cfg(test)]
mod tests;

pub use addr::{Addr, read_addr};
pub use cidr::{Cidr, read_cidr};
