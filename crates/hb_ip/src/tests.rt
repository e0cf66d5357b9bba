//! Texts of RFC 4291 and RFC 5952, with their numbers worked out by hand.

use super::*;
use hb_cases::{bytes, number, rows, unquoted};
use std::alloc::{AllocError, Global};
use std::process::Abort;
use std::test::*;

/// The bytes of an address, four or sixteen.
fn bytes_of(alloc: Global, addr: Addr) -> Result<Vec<u8>, AllocError> {
    match addr {
        Addr::V4(number) => Vec::from_slice(alloc, &number.to_be_bytes()),
        Addr::V6(number) => Vec::from_slice(alloc, &number.to_be_bytes()),
    }
}

/// Reads the texts of a table, which have their bytes behind them.
fn all_read(rt: &impl Abort, alloc: Global, table: &str) -> Result<(), Fail> {
    for row in &rows(alloc, table)? {
        let addr = read_addr(row.cell(0)).ok_or(row.text)?;
        assert_eq!(rt; bytes_of(alloc, addr)?, bytes(alloc, row.cell(1))?, "{row}");
    }
    Ok(())
}

#[test]
fn ipv4_texts_are_read(rt: HostRuntime) -> Result<(), Fail> {
    let table = "
        0.0.0.0         | 00 00 00 00
        10.0.0.1        | 0a 00 00 01
        1.20.30.100     | 01 14 1e 64
        127.0.0.1       | 7f 00 00 01
        192.0.2.235     | c0 00 02 eb
        255.255.255.255 | ff ff ff ff
    ";
    all_read(&rt, rt.alloc(), table)
}

#[test]
fn ipv6_texts_are_read(rt: HostRuntime) -> Result<(), Fail> {
    let table = "
        # RFC 4291, 2.2: uncompressed, compressed, and with IPv4 at the end.
        ABCD:EF01:2345:6789:ABCD:EF01:2345:6789 | abcd ef01 2345 6789 abcd ef01 2345 6789
        2001:DB8:0:0:8:800:200C:417A            | 2001 0db8 0000 0000 0008 0800 200c 417a
        2001:DB8::8:800:200C:417A               | 2001 0db8 0000 0000 0008 0800 200c 417a
        FF01:0:0:0:0:0:0:101                    | ff01 0000 0000 0000 0000 0000 0000 0101
        FF01::101                               | ff01 0000 0000 0000 0000 0000 0000 0101
        0:0:0:0:0:0:0:1                         | 0000 0000 0000 0000 0000 0000 0000 0001
        ::1                                     | 0000 0000 0000 0000 0000 0000 0000 0001
        0:0:0:0:0:0:0:0                         | 0000 0000 0000 0000 0000 0000 0000 0000
        ::                                      | 0000 0000 0000 0000 0000 0000 0000 0000
        0:0:0:0:0:0:13.1.68.3                   | 0000 0000 0000 0000 0000 0000 0d01 4403
        ::13.1.68.3                             | 0000 0000 0000 0000 0000 0000 0d01 4403
        0:0:0:0:0:FFFF:129.144.52.38            | 0000 0000 0000 0000 0000 ffff 8190 3426
        ::FFFF:129.144.52.38                    | 0000 0000 0000 0000 0000 ffff 8190 3426
        # RFC 5952, 1 and 2: one address in many texts.
        2001:db8:0:0:1:0:0:1                    | 2001 0db8 0000 0000 0001 0000 0000 0001
        2001:0db8:0:0:1:0:0:1                   | 2001 0db8 0000 0000 0001 0000 0000 0001
        2001:db8::1:0:0:1                       | 2001 0db8 0000 0000 0001 0000 0000 0001
        2001:db8:0:0:1::1                       | 2001 0db8 0000 0000 0001 0000 0000 0001
        2001:DB8:0:0:1::1                       | 2001 0db8 0000 0000 0001 0000 0000 0001
        2001:db8:aaaa:bbbb:cccc:dddd:eeee:1     | 2001 0db8 aaaa bbbb cccc dddd eeee 0001
        2001:db8:aaaa:bbbb:cccc:dddd:eeee:0001  | 2001 0db8 aaaa bbbb cccc dddd eeee 0001
        # `::` at each end, in the middle, and for one group.
        2001:db8::                              | 2001 0db8 0000 0000 0000 0000 0000 0000
        1:2:3:4:5:6:7::                         | 0001 0002 0003 0004 0005 0006 0007 0000
        ::2:3:4:5:6:7:8                         | 0000 0002 0003 0004 0005 0006 0007 0008
        2001:db8::1:1:1:1:1                     | 2001 0db8 0000 0001 0001 0001 0001 0001
        2001:db8:0:1:1:1:1:1                    | 2001 0db8 0000 0001 0001 0001 0001 0001
        64:ff9b::192.0.2.33                     | 0064 ff9b 0000 0000 0000 0000 c000 0221
        1:2:3:4:5:6:1.2.3.4                     | 0001 0002 0003 0004 0005 0006 0102 0304
    ";
    all_read(&rt, rt.alloc(), table)
}

/// Texts that spell no address.
const NO_ADDRESSES: &str = r#"
    # No IPv4 address: a number, a dot or a digit too much, too few or wrong.
    ""
    1.2.3
    1.2.3.4.5
    1.2.3.
    .1.2.3
    1..2.3
    1.2.3.256
    10.0.0.256
    01.2.3.4
    1.2.3.00
    "1.2.3.4 "
    " 1.2.3.4"
    +1.2.3.4
    1.2.3.a
    0x1.2.3.4
    1.2.3.4/8
    # No IPv6 address: `::` for no group, or twice, or a colon too much.
    1:2:3:4:5:6:7::8
    1:2:3:4:5:6:7:8::
    ::1:2:3:4:5:6:7:8
    1::2::3
    :::
    1:::2
    :1
    1:
    1:2:3:4:5:6:7
    1:2:3:4:5:6:7:8:9
    12345::
    g::
    1:2:3:4:5:6:7:1.2.3.4
    1.2.3.4::
    ::1.2.3.4:5
    ::1.2.3
    ::01.2.3.4
    fe80::1%eth0
    [::1]
    x
"#;

#[test]
fn other_texts_are_no_addresses(rt: HostRuntime) -> Result<(), Fail> {
    for row in &rows(rt.alloc(), NO_ADDRESSES)? {
        assert_eq!(rt; read_addr(unquoted(row.text)), None, "{row}");
    }
    Ok(())
}

/// Texts, with the bytes of their addresses and their lengths.
const BLOCKS: &str = "
    10.0.0.0/8    | 0a 00 00 00                             | 8
    10.1.2.3/8    | 0a 01 02 03                             | 8
    10.0.0.0/0    | 0a 00 00 00                             | 0
    10.0.0.0/32   | 0a 00 00 00                             | 32
    2001:db8::/32 | 2001 0db8 0000 0000 0000 0000 0000 0000 | 32
    ::/0          | 0000 0000 0000 0000 0000 0000 0000 0000 | 0
    ::1/128       | 0000 0000 0000 0000 0000 0000 0000 0001 | 128
    ::1.2.3.4/100 | 0000 0000 0000 0000 0000 0000 0102 0304 | 100
";

#[test]
fn blocks_are_read(rt: HostRuntime) -> Result<(), Fail> {
    for row in &rows(rt.alloc(), BLOCKS)? {
        let block = read_cidr(row.cell(0)).ok_or(row.text)?;
        let addr = bytes_of(rt.alloc(), block.addr)?;
        assert_eq!(rt; addr, bytes(rt.alloc(), row.cell(1))?, "{row}");
        assert_eq!(rt; block.length, number::<u8>(row.cell(2))?, "{row}");
    }
    Ok(())
}

/// Texts that spell no block.
const NO_BLOCKS: &str = "
    10.0.0.0/33
    10.0.0.0/128
    ::/129
    ::/256
    ::/288
    10.0.0.0/08
    10.0.0.0/00
    10.0.0.0/+8
    10.0.0.0/-8
    10.0.0.0/ 8
    10.0.0.0/
    10.0.0.0
    /8
    10.0.0.0/8/8
    10.0.0/8
    10.0.0.0 /8
    10.0.0.0/255.0.0.0
";

#[test]
fn other_texts_are_no_blocks(rt: HostRuntime) -> Result<(), Fail> {
    for row in &rows(rt.alloc(), NO_BLOCKS)? {
        assert_eq!(rt; read_cidr(row.text), None, "{row}");
    }
    Ok(())
}

/// Blocks and addresses, and whether the one contains the other.
const CONTAINED: &str = "
    10.0.0.0/8         | 10.255.255.255  | true
    10.0.0.0/8         | 11.0.0.0        | false
    10.9.9.9/8         | 10.0.0.1        | true
    0.0.0.0/0          | 255.255.255.255 | true
    128.0.0.0/1        | 127.255.255.255 | false
    128.0.0.0/1        | 200.1.1.1       | true
    1.2.3.4/32         | 1.2.3.4         | true
    1.2.3.4/32         | 1.2.3.5         | false
    1.2.3.4/31         | 1.2.3.5         | true
    2001:db8::/32      | 2001:db8::1     | true
    2001:db8::/32      | 2001:db9::1     | false
    2001:db8::1/128    | 2001:db8::1     | true
    2001:db8::1/128    | 2001:db8::2     | false
    ffff::/1           | 7fff::          | false
    ::/0               | ffff::          | true
    ::/0               | 1.2.3.4         | false
    0.0.0.0/0          | ::              | false
    ::ffff:1.2.3.4/128 | 1.2.3.4         | false
";

#[test]
fn blocks_contain_addresses(rt: HostRuntime) -> Result<(), Fail> {
    for row in &rows(rt.alloc(), CONTAINED)? {
        let block = read_cidr(row.cell(0)).ok_or(row.text)?;
        let addr = read_addr(row.cell(1)).ok_or(row.text)?;
        assert_eq!(rt;
            block.contains(&addr),
            number::<bool>(row.cell(2))?,
            "{row}"
        );
    }
    Ok(())
}
