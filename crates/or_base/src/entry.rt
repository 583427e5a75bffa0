ghost use Rattle.std.specs.Prelude.{◌≡◌, IfOk};

use crate::memory::{Copied, NoMemory};
use crate::origin::Origin;
use crate::text::Key;
use crate::value::Pair;

/// One change of a store. Moments are in milliseconds.
#[derive(Clone, Drop)]
pub enum JournalEntry {
    /// The pair was merged.
    Merged { pair: Pair, at: u64, origin: Origin },
    /// The value held under the key reached its deadline.
    Expired { key: Key, at: u64 },
    /// The store restarted, and holds nothing.
    Cleared { at: u64 },
}

impl JournalEntry {
    /// An equal entry.
    pub fn copied(&self) -> Result<Self, NoMemory>
        ensures { IfOk result (λ copy. copy ≡ self.now) }
    {
        Ok(self.clone()?)
    }
}

impl Copied for JournalEntry {
    fn copied(&self) -> Result<Self, NoMemory> {
        JournalEntry::copied(self)
    }
}
