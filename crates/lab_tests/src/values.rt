//! kv_value: hashes that are stated elsewhere, the greater of two values, and what is left of a lifetime.

use crate::fixtures::value_by;
use kv_value::{Sent, greater_of, hash_of, sent_ttl};
use or_base::{MOST_VALUE_BYTES, MOST_VERSION, NoMemory};
use sha2::{Digest, Sha256};
use std::alloc::Global;
use std::test::Fail;

/// Version, originator, value bytes and hash. Each hash is the first 8 bytes of what Python's `hashlib.sha256` gives for
/// the framing that `struct.pack` made. That of the first is 0000000000000001 00000001 61 00000001 01.
const CASES: [(u64, &str, &[u8], u64); 7] = [
    (1, "a", &[1], 0x0a6e_7e81_1c25_de53),
    (1, "a", &[], 0x7226_ed18_b31b_51a3),
    (1, "", &[], 0x7838_2582_2a6f_9e62),
    // The two differ in where the originator ends.
    (1, "ab", &[1], 0xedbe_f78c_665a_d661),
    (1, "a", &[98, 1], 0x484a_4cb1_5ee1_a67f),
    (2, "a", &[1], 0x0b9b_2922_1448_66e1),
    (u64::MAX, "node", &[255; 64], 0x4a74_b1db_9f2f_9034),
];

/// Messages of one block and of two from the examples of FIPS 180-4, and the two shortest of NIST's test vectors for it, with
/// the first 8 bytes of the digest stated there.
const MESSAGES: [(&[u8], u64); 4] = [
    (b"abc", 0xba78_16bf_8f01_cfea),
    (
        b"abcdbcdecdefdefgefghfghighijhijkijkljklmklmnlmnomnopnopq",
        0x248d_6a61_d206_38b8,
    ),
    (&[], 0xe3b0_c442_98fc_1c14),
    (&[0xd3], 0x2896_9cdf_a74a_12c8),
];

/// The first 8 bytes of a digest, as a number with the high byte first.
fn first_number(digest: &[u8; 32]) -> u64 {
    u64::from_be_bytes([
        digest[0], digest[1], digest[2], digest[3], digest[4], digest[5], digest[6], digest[7],
    ])
}

/// The first 8 bytes of the hash of a message.
fn hash_in_one(message: &[u8]) -> u64 {
    let mut hasher = Sha256::new();
    hasher.update(message);
    first_number(&hasher.finalize())
}

/// The same of a message in two pieces, as a value is hashed in pieces.
fn hash_in_two(message: &[u8]) -> u64 {
    let half = message.len() / 2;
    let mut hasher = Sha256::new();
    hasher.update(&message[..half]);
    hasher.update(&message[half..]);
    first_number(&hasher.finalize())
}

#[test]
fn public_messages_have_their_stated_hash(rt: HostRuntime) -> Result<(), Fail> {
    for (message, want) in MESSAGES {
        assert_eq!(rt; hash_in_one(message), want);
        assert_eq!(rt; hash_in_two(message), want);
    }
    Ok(())
}

#[test]
fn hashes_are_of_the_framing(rt: HostRuntime) -> Result<(), Fail> {
    for (version, originator, bytes, want) in CASES {
        let v = value_by(rt.alloc(), version, originator, bytes)?;
        assert_eq!(rt; hash_of(&v), want, "{version} of {originator}");
    }
    Ok(())
}

#[test]
fn lifetimes_are_not_hashed(rt: HostRuntime) -> Result<(), Fail> {
    let mut v = value_by(rt.alloc(), 1, "a", &[1])?;
    v.ttl = Some(7);
    v.ttl_version = 9;
    assert_eq!(rt; hash_of(&v), 0x0a6e_7e81_1c25_de53);
    Ok(())
}

/// As many bytes as a value may have: 0 to 255, again and again.
fn longest_bytes(alloc: Global) -> Result<Vec<u8>, NoMemory> {
    let mut bytes = Vec::new(alloc);
    for i in 0..MOST_VALUE_BYTES {
        bytes.push((i % 256) as u8)?;
    }
    Ok(bytes)
}

#[test]
fn the_longest_value_is_hashed(rt: HostRuntime) -> Result<(), Fail> {
    let bytes = longest_bytes(rt.alloc())?;
    let longest = value_by(rt.alloc(), MOST_VERSION, "r1n1.lab-a_b-c.d-e.f", &bytes)?;
    // From `hashlib.sha256` over the 4,132 bytes of the framing.
    assert_eq!(rt; hash_of(&longest), 0x437c_32f4_bfa4_1fb1);
    Ok(())
}

#[test]
fn the_greater_value_is_the_later_version(rt: HostRuntime) -> Result<(), Fail> {
    let alloc = rt.alloc();
    let first = value_by(alloc, 1, "b", &[9])?;
    let second = value_by(alloc, 2, "a", &[])?;
    assert_eq!(rt; greater_of(&first, &second).version, 2);
    assert_eq!(rt; greater_of(&second, &first).version, 2);
    Ok(())
}

#[test]
fn each_sending_takes_a_millisecond(rt: HostRuntime) -> Result<(), Fail> {
    assert!(rt; sent_ttl(None, 3, 9) == Sent::Forever);
    assert!(rt; sent_ttl(Some(10), 3, 3) == Sent::Left(9));
    assert!(rt; sent_ttl(Some(10), 3, 12) == Sent::Withheld);
    Ok(())
}
