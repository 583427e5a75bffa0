ghost use Rattle.std.specs.Prelude.{◌≡◌, IfOk};

use crate::act::Act;
use crate::database::PrefixEntry;
use crate::entry::JournalEntry;
use crate::memory::{Copied, NoMemory};
use crate::message::Msg;
use crate::prefix::Prefix;
use crate::route::Delta;
use crate::seq::Seq;
use crate::text::{Bytes, Key, Name};
use crate::value::Pair;

/// What a lane carries. Links are named by number, below 2^31; moments are in milliseconds.
#[derive(Clone, Drop)]
pub enum Item {
    /// From the driver to a link: it carries from now on.
    Up,
    /// From the driver to a link: it carries no longer.
    Down,
    /// From the driver to a link: what it does with the next messages of a node.
    Script {
        from: Name,
        acts: Seq<Act>,
    },
    /// From the driver: the moment is this.
    Tick {
        at: u64,
    },
    /// From the driver to a store: offer the pair.
    Set {
        pair: Pair,
    },
    /// From the driver to a store: start a full sync over a link.
    Sync {
        link: u32,
    },
    /// From the driver to a store or a Spark: begin anew.
    Restart,
    /// To a store: own the key with this value.
    Persist {
        key: Key,
        value: Bytes,
        ttl: Option<u64>,
    },
    /// From the driver to a store: own the key no longer.
    Unset {
        key: Key,
    },
    /// From the driver to LinkMonitor: carry no transit traffic, or do again.
    Drain {
        on: bool,
    },
    /// From the driver to LinkMonitor: the same of one link.
    LinkDrain {
        link: u32,
        on: bool,
    },
    /// From the driver to LinkMonitor: the metric of a link.
    Metric {
        link: u32,
        metric: u32,
    },
    /// From the driver to PrefixManager: advertise the entry.
    Advertise {
        entry: PrefixEntry,
    },
    /// From the driver to PrefixManager: advertise the prefix no longer.
    Withdraw {
        prefix: Prefix,
    },
    /// From the driver to PrefixManager: advertise the prefix while so many routes lie in it.
    Aggregate {
        prefix: Prefix,
        min: u32,
    },
    /// From the driver to a desk: what is held under the key.
    Get {
        key: Key,
    },
    /// From the driver to a desk: the route to the prefix.
    Ask {
        prefix: Prefix,
    },
    /// From a link to Spark: the link carries.
    LinkUp {
        link: u32,
    },
    /// From a link to Spark: the link carries no longer.
    LinkDown {
        link: u32,
    },
    /// From Spark to LinkMonitor: a neighbour, and its interface.
    NeighbourUp {
        link: u32,
        peer: Name,
        peer_if: Name,
    },
    /// From Spark to LinkMonitor: the neighbour is gone.
    NeighbourDown {
        link: u32,
    },
    /// To a store: the node at the other end of the link can be reached.
    PeerUp {
        link: u32,
        peer: Name,
    },
    /// To a store: it can be reached no longer.
    PeerDown {
        link: u32,
    },
    /// A message of the node `from`, on its way to a link or from it.
    Net {
        link: u32,
        from: Name,
        msg: Msg,
    },
    /// From a store to Decision: a new entry of its journal.
    Entry {
        entry: JournalEntry,
    },
    /// From Decision to Fib and PrefixManager: what changed in its routes.
    Routes {
        delta: Delta,
    },
}

impl Item {
    /// An equal item.
    pub fn copied(&self) -> Result<Self, NoMemory>
        ensures { IfOk result (λ copy. copy ≡ self.now) }
    {
        Ok(self.clone()?)
    }
}

impl Copied for Item {
    fn copied(&self) -> Result<Self, NoMemory> {
        Item::copied(self)
    }
}

/// An item with the stamp of the turn that sent it.
#[derive(Clone, Drop)]
pub struct Stamped {
    pub stamp: u64,
    pub item: Item,
}

impl Stamped {
    /// An equal item with an equal stamp.
    pub fn copied(&self) -> Result<Self, NoMemory>
        ensures { IfOk result (λ copy. copy ≡ self.now) }
    {
        Ok(self.clone()?)
    }
}

impl Copied for Stamped {
    fn copied(&self) -> Result<Self, NoMemory> {
        Stamped::copied(self)
    }
}
