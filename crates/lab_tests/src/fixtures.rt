//! What several tests begin from.

ghost use Rattle.std.specs.Prelude.{◌≡◌, None, IfOk};

use or_base::{Bytes, KvValue, Name, NoMemory};
use std::alloc::Global;

/// The name of a text.
pub fn name(alloc: Global, text: &str) -> Result<Name, NoMemory>
    ensures { IfOk result (λ name. name ≡ text.now) }
{
    Ok(Name::from_string(String::from_str(alloc, text)?))
}

/// A value without a lifetime, with the TTL version 0.
pub fn value_by(
    alloc: Global,
    version: u64,
    originator: &str,
    bytes: &[u8],
) -> Result<KvValue, NoMemory>
    ensures { IfOk result (λ value. value ≡ record { version = version; originator = originator.now; value = bytes.now; ttl = None; ttl_version = 0 }) }
{
    Ok(KvValue {
        version,
        originator: name(alloc, originator)?,
        value: Bytes::from_vec(bytes.to_vec(alloc)?),
        ttl: None,
        ttl_version: 0,
    })
}
