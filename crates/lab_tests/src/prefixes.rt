//! or_prefix: prefixes that are read and printed, and texts that are none.

use or_base::{NoMemory, Prefix};
use or_prefix::{prefix_text, read_prefix};
use std::alloc::Global;
use std::test::Fail;

/// What each text prints as once it is read, or its fault, with a semicolon after each.
fn texts_or_faults(alloc: Global, texts: &[&str]) -> Result<Vec<u8>, NoMemory> {
    let mut all = Vec::new(alloc);
    for text in texts {
        let one = match read_prefix(text.as_bytes()) {
            Ok(prefix) => prefix_text(alloc, &prefix)?,
            Err(fault) => format!(in alloc; "{fault:?}")?.into_bytes(),
        };
        all.extend_from_slice(one.as_slice())?;
        all.push(b';')?;
    }
    Ok(all)
}

/// As RFC 5952 recommends: a single group of 0 isn't shortened, letters are lower, the longest run is `::`.
const IPV6: [&str; 5] = [
    "2001:DB8:0:0:1:0:0:1/128",
    "2001:db8:0:1:1:1:1:1/128",
    "::/0",
    "2001:db8::/32",
    "00A0::0:0/16",
];

#[test]
fn ipv6_prefixes_are_read_and_printed(rt: HostRuntime) -> Result<(), Fail> {
    let given = texts_or_faults(rt.alloc(), &IPV6)?;
    let want = "2001:db8::1:0:0:1/128;2001:db8:0:1:1:1:1:1/128;::/0;2001:db8::/32;a0::/16;";
    assert_eq!(rt; given.as_slice(), want.as_bytes());
    Ok(())
}

const IPV4: [&str; 3] = ["10.4.0.0/16", "0.0.0.0/0", "255.255.255.255/32"];

#[test]
fn ipv4_prefixes_are_read_and_printed(rt: HostRuntime) -> Result<(), Fail> {
    let given = texts_or_faults(rt.alloc(), &IPV4)?;
    assert_eq!(rt;
        given.as_slice(),
        "10.4.0.0/16;0.0.0.0/0;255.255.255.255/32;".as_bytes()
    );
    Ok(())
}

/// Three octets, no length, a length or an octet with a leading zero, an octet above 255.
const NO_IPV4: [&str; 7] = [
    "10.0.0/24",
    "10.0.0.0",
    "10.0.0.0/",
    "10.0.0.0/024",
    "10.0.0.0/24/24",
    "256.0.0.0/8",
    "01.0.0.0/8",
];

#[test]
fn texts_of_another_form_are_no_ipv4_prefix(rt: HostRuntime) -> Result<(), Fail> {
    let given = texts_or_faults(rt.alloc(), &NO_IPV4)?;
    assert_eq!(rt;
        given.as_slice(),
        "BadForm;BadForm;BadForm;BadForm;BadForm;BadForm;BadForm;".as_bytes()
    );
    Ok(())
}

/// Two `::`, three colons, `::` for no group, nine groups, five digits, no number, nothing, an embedded dotted part.
const NO_IPV6: [&str; 8] = [
    "1::2::3/64",
    ":::/0",
    "1:2:3:4:5:6:7:8::/128",
    "1:2:3:4:5:6:7:8:9/128",
    "12345::/16",
    "g::/16",
    "",
    "::ffff:1.2.3.4/128",
];

#[test]
fn texts_of_another_form_are_no_ipv6_prefix(rt: HostRuntime) -> Result<(), Fail> {
    let given = texts_or_faults(rt.alloc(), &NO_IPV6)?;
    assert_eq!(rt;
        given.as_slice(),
        "BadForm;BadForm;BadForm;BadForm;BadForm;BadForm;BadForm;BadForm;".as_bytes()
    );
    Ok(())
}

/// Lengths past the address, and bits past the length.
const BAD_PARTS: [&str; 6] = [
    "10.0.0.0/33",
    "::/129",
    "::/999",
    "10.0.0.1/24",
    "2001:db8::1/64",
    "::1/0",
];

#[test]
fn lengths_and_bits_keep_their_bounds(rt: HostRuntime) -> Result<(), Fail> {
    let given = texts_or_faults(rt.alloc(), &BAD_PARTS)?;
    assert_eq!(rt;
        given.as_slice(),
        "BadLength;BadLength;BadLength;HostBits;HostBits;HostBits;".as_bytes()
    );
    Ok(())
}

#[test]
fn ipv4_prefixes_are_before_ipv6_prefixes(rt: HostRuntime) -> Result<(), Fail> {
    let four = Prefix::new(false, 0xffff_0000, 16);
    let whole = Prefix::new(true, 0, 0);
    let short = Prefix::new(true, 1 << 127, 1);
    let long = Prefix::new(true, 1 << 127, 2);
    assert!(rt; four < whole);
    assert!(rt; whole < short);
    assert!(rt; short < long);
    Ok(())
}
