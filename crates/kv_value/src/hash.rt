ghost use Rattle.std.specs.Prelude.{◌≡◌, length, take};
ghost use Rattle.std.specs.Int.{w32, w64, from_be_bytes, to_be_bytes};
ghost use Rattle.kv_value.specs.Hashing.{hash_of};

use or_base::KvValue;
use sha2::{Digest, Sha256};

/// How many bytes there are, in 4 bytes with the high byte first.
#[tactic(auto, using(crate::proofs::Framing::low_word))]
fn length_bytes(bytes: &[u8]) -> [u8; 4]
    ensures { result ≡ to_be_bytes w32 (length bytes.now) }
{
    // A length past 32 bits keeps its low ones.
    let low = (bytes.len() % 0x1_0000_0000) as u32;
    low.to_be_bytes()
}

/// The first 8 bytes, as a number with the high byte first.
pub(crate) fn first_number(digest: &[u8; 32]) -> u64
    ensures { result ≡ from_be_bytes w64 (take 8 digest.now) }
{
    u64::from_be_bytes([
        digest[0], digest[1], digest[2], digest[3], digest[4], digest[5], digest[6], digest[7],
    ])
}

/// The hash of version, originator and value bytes, which tells values of one version and originator apart. It takes no
/// memory.
#[tactic(auto, unfolding(crate::specs::Hashing::framing, crate::specs::Hashing::hash_of))]
pub fn hash_of(v: &KvValue) -> u64
    ensures { result ≡ hash_of v.now }
{
    let originator = v.originator.as_str().as_bytes();
    let value = v.value.as_slice();
    let mut hasher = Sha256::new();
    hasher.update(v.version.to_be_bytes());
    hasher.update(length_bytes(originator));
    hasher.update(originator);
    hasher.update(length_bytes(value));
    hasher.update(value);
    first_number(&hasher.finalize())
}
