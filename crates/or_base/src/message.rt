ghost use Rattle.std.specs.Prelude.{◌≡◌, IfOk};

use crate::digest::DigestRow;
use crate::memory::{Copied, NoMemory};
use crate::seq::Seq;
use crate::text::{Key, Name};
use crate::value::Pair;

/// What a link carries between nodes: messages of Spark, and then messages of stores.
#[derive(Clone, Drop)]
pub enum Msg {
    /// The sender's interface, and the node that it hears there.
    Hello {
        iface: Name,
        heard: Option<Name>,
        restarting: bool,
    },
    /// The sender's interface, and whether it is done.
    Handshake {
        iface: Name,
        done: bool,
    },
    /// The sender is there.
    Heartbeat,
    /// Pairs that were merged, with the nodes that the flood has passed.
    Flood {
        passed: Seq<Name>,
        pairs: Seq<Pair>,
    },
    /// The first message of a full sync: what the sender holds.
    Dump {
        session: u64,
        digest: Seq<DigestRow>,
    },
    /// The second: better pairs and wanted keys, the length of the sender's journal, and how many pairs were withheld.
    Reply {
        session: u64,
        b0: u64,
        pairs: Seq<Pair>,
        wanted: Seq<Key>,
        withheld: u64,
    },
    /// The third: the wanted pairs.
    Push {
        session: u64,
        pairs: Seq<Pair>,
    },
    /// The last.
    Ack {
        session: u64,
    },
}

impl Msg {
    /// An equal message.
    pub fn copied(&self) -> Result<Self, NoMemory>
        ensures { IfOk result (λ copy. copy ≡ self.now) }
    {
        Ok(self.clone()?)
    }
}

impl Copied for Msg {
    fn copied(&self) -> Result<Self, NoMemory> {
        Msg::copied(self)
    }
}
