ghost use Rattle.std.specs.Prelude.{◌≡◌};
ghost use Rattle.std.specs.List.{list_all};
ghost use Rattle.or_base.specs.Limits.{is_name_byte, is_key_byte, is_node_name, is_interface_name, is_key, is_valid_value, is_valid_pair};

use crate::value::{KvValue, Pair};

/// The greatest length of a node's name, in bytes.
pub const MOST_NODE_NAME_BYTES: usize = 20;

/// The greatest length of an interface's name, in bytes.
pub const MOST_INTERFACE_NAME_BYTES: usize = 24;

/// The greatest length of a key, in bytes.
pub const MOST_KEY_BYTES: usize = 128;

/// How many bytes a value has at most.
pub const MOST_VALUE_BYTES: usize = 4096;

/// The greatest version of a value.
pub const MOST_VERSION: u64 = 1 << 62;

/// The greatest TTL version of a value.
pub const MOST_TTL_VERSION: u64 = 1 << 62;

/// The longest time to live, in milliseconds.
pub const MOST_LIFETIME: u64 = 1 << 40;

/// How many adjacencies a link record has at most.
pub const MOST_ADJACENCIES: usize = 24;

/// The greatest metric of an adjacency.
pub const MOST_METRIC: u32 = (1 << 31) - 1;

/// How many entries a prefix record has at most.
pub const MOST_PREFIX_ENTRIES: usize = 32;

/// The greatest path preference, source preference and distance of a prefix entry.
pub const MOST_PREFERENCE: u32 = (1 << 31) - 1;

/// The byte may stand in a name: a to z, 0 to 9, `-`, `_` and `.`.
fn is_name_byte(b: u8) -> bool
    ensures { result ≡ is_name_byte b }
{
    (b'a' <= b && b <= b'z') || (b'0' <= b && b <= b'9') || b == b'-' || b == b'_' || b == b'.'
}

/// Each byte may stand in a name.
pub fn has_name_bytes(text: &[u8]) -> bool
    ensures { result ≡ list_all is_name_byte text.now }
{
    text.iter().all(|&b| is_name_byte(b))
}

/// The byte may stand in a key: printable ASCII other than the space.
fn is_key_byte(b: u8) -> bool
    ensures { result ≡ is_key_byte b }
{
    b'!' <= b && b <= b'~'
}

/// Each byte may stand in a key.
pub fn has_key_bytes(text: &[u8]) -> bool
    ensures { result ≡ list_all is_key_byte text.now }
{
    text.iter().all(|&b| is_key_byte(b))
}

/// The text is a node's name: 1 to `MOST_NODE_NAME_BYTES` characters of a to z, 0 to 9, `-`, `_` and `.`.
#[tactic(auto, unfolding(crate::specs::Limits::is_node_name))]
pub fn is_node_name(name: &[u8]) -> bool
    ensures { result ≡ is_node_name name.now }
{
    1 <= name.len() && name.len() <= MOST_NODE_NAME_BYTES && has_name_bytes(name)
}

/// The text is an interface's name: 1 to `MOST_INTERFACE_NAME_BYTES` such characters.
#[tactic(auto, unfolding(crate::specs::Limits::is_interface_name))]
pub fn is_interface_name(name: &[u8]) -> bool
    ensures { result ≡ is_interface_name name.now }
{
    1 <= name.len() && name.len() <= MOST_INTERFACE_NAME_BYTES && has_name_bytes(name)
}

/// The text is a key: 1 to `MOST_KEY_BYTES` bytes of printable ASCII other than the space.
#[tactic(auto, unfolding(crate::specs::Limits::is_key))]
pub fn is_key(key: &[u8]) -> bool
    ensures { result ≡ is_key key.now }
{
    1 <= key.len() && key.len() <= MOST_KEY_BYTES && has_key_bytes(key)
}

/// Each part of the value is within its limit.
#[tactic(auto, unfolding(crate::specs::Limits::is_valid_value))]
fn is_valid_value(v: &KvValue) -> bool
    ensures { result ≡ is_valid_value v.now }
{
    is_node_name(v.originator.as_str().as_bytes())
        && v.value.as_slice().len() <= MOST_VALUE_BYTES
        && 1 <= v.version
        && v.version <= MOST_VERSION
        && v.ttl.map_or(true, |ttl| 1 <= ttl && ttl <= MOST_LIFETIME)
        && v.ttl_version <= MOST_TTL_VERSION
}

/// The key and the value are within their limits.
#[tactic(auto, unfolding(crate::specs::Limits::is_valid_pair))]
pub fn is_valid_pair(pair: &Pair) -> bool
    ensures { result ≡ is_valid_pair pair.now }
{
    is_key(pair.key.as_str().as_bytes()) && is_valid_value(&pair.value)
}
