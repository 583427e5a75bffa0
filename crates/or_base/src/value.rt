ghost use Rattle.std.specs.Prelude.{◌≡◌, IfOk};

use crate::memory::{Copied, NoMemory};
use crate::text::{Bytes, Key, Name};

/// A value of a store, with what orders it and how long it lives.
#[derive(Clone, Drop)]
pub struct KvValue {
    /// From 1 to `MOST_VERSION`. The greater version wins.
    pub version: u64,
    /// The node that made the value.
    pub originator: Name,
    /// At most `MOST_VALUE_BYTES` bytes.
    pub value: Bytes,
    /// The time to live in milliseconds, from 1 to `MOST_LIFETIME`; None means for ever.
    pub ttl: Option<u64>,
    /// From 0 to `MOST_TTL_VERSION`. It rises with each refresh of the lifetime.
    pub ttl_version: u64,
}

impl KvValue {
    /// An equal value.
    pub fn copied(&self) -> Result<Self, NoMemory>
        ensures { IfOk result (λ copy. copy ≡ self.now) }
    {
        Ok(self.clone()?)
    }
}

impl Copied for KvValue {
    fn copied(&self) -> Result<Self, NoMemory> {
        KvValue::copied(self)
    }
}

/// A key with its value.
#[derive(Clone, Drop)]
pub struct Pair {
    pub key: Key,
    pub value: KvValue,
}

impl Pair {
    /// An equal pair.
    pub fn copied(&self) -> Result<Self, NoMemory>
        ensures { IfOk result (λ copy. copy ≡ self.now) }
    {
        Ok(self.clone()?)
    }
}

impl Copied for Pair {
    fn copied(&self) -> Result<Self, NoMemory> {
        Pair::copied(self)
    }
}
