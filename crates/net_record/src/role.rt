use or_actor::LinkEnd;
use or_base::{Name, Seq};

/// What a node consists of.
#[derive(Clone, Copy, Debug, PartialEq, Eq)]
pub enum NodeModule {
    /// Its Spark, which finds neighbours.
    Spark,
    /// Its LinkMonitor, which publishes them.
    LinkMonitor,
    /// Its PrefixManager, which publishes prefixes.
    PrefixManager,
    /// Its store.
    Store,
    /// Its Decision, which computes routes.
    Decision,
    /// Its Fib, which programs them.
    Fib,
    /// Its desk, which answers questions.
    Desk,
}

/// What the modules of a node are set up with.
#[derive(Drop)]
pub struct NodeSetup {
    /// The actor number of the node's store.
    pub store: u32,
    /// That of the node's Decision; the driver's, where the node has none.
    pub decision: u32,
    /// The ends of the node's links, in the order of the links' numbers.
    pub ends: Seq<LinkEnd>,
    /// The lifetime of the records that the node publishes, in milliseconds.
    pub ttl: Option<u64>,
    /// The numbers, from 1, of the calls that the agent of the node's Fib refuses.
    pub faults: Seq<u64>,
}

/// What an actor is. Actors are numbered from 0: the driver, then the modules of the nodes in order, then the links.
#[derive(Drop)]
pub enum Role {
    /// Gives out what the commands say.
    Driver,
    /// A module of a node.
    Node {
        module: NodeModule,
        node: Name,
        setup: NodeSetup,
    },
    /// A link between the nodes a and b.
    Link {
        link: u32,
        a: Name,
        b: Name,
    },
}
