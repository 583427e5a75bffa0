ghost use Rattle.std.specs.Prelude.{◌≡◌, IfOk};

use crate::memory::{Copied, NoMemory};
use crate::prefix::Prefix;
use crate::seq::Seq;
use crate::text::Name;

/// A neighbour that a node reports, over one of its interfaces.
#[derive(Clone, Drop)]
pub struct Adjacency {
    pub other: Name,
    pub own_if: Name,
    pub other_if: Name,
    /// 1 to `MOST_METRIC`.
    pub metric: u32,
    /// The link takes no traffic.
    pub overload: bool,
}

impl Adjacency {
    /// An equal adjacency.
    pub fn copied(&self) -> Result<Self, NoMemory>
        ensures { IfOk result (λ copy. copy ≡ self.now) }
    {
        Ok(self.clone()?)
    }
}

impl Copied for Adjacency {
    fn copied(&self) -> Result<Self, NoMemory> {
        Adjacency::copied(self)
    }
}

/// A node's link record.
#[derive(Clone, Drop)]
pub struct AdjDb {
    pub node: Name,
    /// The node carries no transit traffic.
    pub overload: bool,
    /// At most `MOST_ADJACENCIES`.
    pub adjacencies: Seq<Adjacency>,
}

impl AdjDb {
    /// An equal record.
    pub fn copied(&self) -> Result<Self, NoMemory>
        ensures { IfOk result (λ copy. copy ≡ self.now) }
    {
        Ok(self.clone()?)
    }
}

impl Copied for AdjDb {
    fn copied(&self) -> Result<Self, NoMemory> {
        AdjDb::copied(self)
    }
}

/// A prefix that a node advertises, with what selection compares. The numbers are 0 to
/// `MOST_PREFERENCE`.
#[derive(Clone, Copy, Debug, PartialEq, Eq)]
pub struct PrefixEntry {
    pub prefix: Prefix,
    /// Path preference: the highest wins.
    pub path: u32,
    /// Source preference: the highest wins among equal path preferences.
    pub source: u32,
    /// The lowest wins among those.
    pub distance: u32,
}

impl PrefixEntry {
    /// An equal entry.
    pub fn copied(&self) -> Result<Self, NoMemory>
        ensures { IfOk result (λ copy. copy ≡ self.now) }
    {
        Ok(*self)
    }
}

impl Copied for PrefixEntry {
    fn copied(&self) -> Result<Self, NoMemory> {
        PrefixEntry::copied(self)
    }
}

/// A node's prefix record.
#[derive(Clone, Drop)]
pub struct PrefixDb {
    pub node: Name,
    /// At most `MOST_PREFIX_ENTRIES`.
    pub entries: Seq<PrefixEntry>,
}

impl PrefixDb {
    /// An equal record.
    pub fn copied(&self) -> Result<Self, NoMemory>
        ensures { IfOk result (λ copy. copy ≡ self.now) }
    {
        Ok(self.clone()?)
    }
}

impl Copied for PrefixDb {
    fn copied(&self) -> Result<Self, NoMemory> {
        PrefixDb::copied(self)
    }
}
