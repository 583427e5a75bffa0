ghost use Rattle.std.specs.Prelude.{◌≡◌, IfOk};

use crate::memory::{Copied, NoMemory};
use crate::text::Name;

/// A full sync that was finished, as its starter tells it.
#[derive(Clone, Drop)]
pub struct SyncDone {
    pub link: u32,
    /// The node at the other end.
    pub peer: Name,
    /// The session's number, which no other session of the store has.
    pub session: u64,
    /// The length of the starter's journal when its digest was made.
    pub a0: u64,
    /// The length of the peer's journal when its reply was made.
    pub b0: u64,
    /// How many pairs were withheld because too little of their lifetime was left.
    pub withheld: u64,
}

impl SyncDone {
    /// An equal one.
    pub fn copied(&self) -> Result<Self, NoMemory>
        ensures { IfOk result (λ copy. copy ≡ self.now) }
    {
        Ok(self.clone()?)
    }
}

impl Copied for SyncDone {
    fn copied(&self) -> Result<Self, NoMemory> {
        SyncDone::copied(self)
    }
}
