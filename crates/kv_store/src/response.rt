ghost use Rattle.std.specs.Prelude.{◌≡◌};

use or_base::{DigestRow, Key, Name, Seq};

/// What a turn has to respond with, beside what it floods.
#[derive(Drop)]
pub enum Response {
    Nothing,
    /// A full sync is to start with the peer of a link, if it has one.
    Start {
        link: u32,
    },
    /// A full sync is to start with each peer.
    StartAll,
    /// A dump is to be replied to.
    Reply {
        link: u32,
        session: u64,
        digest: Seq<DigestRow>,
    },
    /// What was wanted is to be pushed.
    Push {
        link: u32,
        wanted: Seq<Key>,
    },
    /// A push is to be acknowledged.
    Ack {
        link: u32,
        session: u64,
    },
}

/// What is left of a turn once its item is taken: what it has to respond with, and the nodes that the flood of what the item
/// brought has passed.
#[derive(Drop)]
pub struct Remaining {
    pub response: Response,
    pub passed: Seq<Name>,
}

impl Remaining {
    /// This response, and a flood that has passed these nodes. It takes no memory.
    pub fn new(response: Response, passed: Seq<Name>) -> Remaining
        ensures response { result.response ≡ response }
        ensures passed { result.passed ≡ passed }
    {
        Remaining { response, passed }
    }
}
