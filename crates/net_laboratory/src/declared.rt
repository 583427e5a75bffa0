use or_base::{Name, Seq};

/// A node of the laboratory.
#[derive(Drop)]
pub struct NodeDecl {
    pub name: Name,
    /// The calls on the node's forwarding agent that fail, by number from 1: at most 64 numbers up to 500,000.
    pub faults: Seq<u64>,
}

/// A link between two different nodes, with an interface and a metric (1 to 2^31 - 1) at each end. Links are numbered
/// from 0 in the order of their declarations.
#[derive(Drop)]
pub struct LinkDecl {
    pub a: Name,
    pub aif: Name,
    pub am: u32,
    pub b: Name,
    pub bif: Name,
    pub bm: u32,
}
