ghost use Rattle.std.specs.Prelude.{◌≡◌, IfOk};

use crate::memory::{Copied, NoMemory};
use crate::text::{Key, Name};

/// What a digest tells of a held value.
#[derive(Clone, Drop)]
pub struct DigestRow {
    pub key: Key,
    pub version: u64,
    pub originator: Name,
    /// The hash of version, originator and value bytes.
    pub hash: u64,
    pub ttl_version: u64,
}

impl DigestRow {
    /// An equal row.
    pub fn copied(&self) -> Result<Self, NoMemory>
        ensures { IfOk result (λ copy. copy ≡ self.now) }
    {
        Ok(self.clone()?)
    }
}

impl Copied for DigestRow {
    fn copied(&self) -> Result<Self, NoMemory> {
        DigestRow::copied(self)
    }
}
