use or_base::{Name, PrefixEntry, Seq};

/// A node's offer to take traffic for a prefix.
#[derive(Drop)]
pub struct Offer {
    pub node: Name,
    pub entry: PrefixEntry,
    /// The node takes no transit traffic.
    pub overload: bool,
    /// The cost of a least walk to the node, where there is one.
    pub cost: Option<u64>,
}

/// The nodes to which a prefix is routed, all at the same cost.
#[derive(Drop)]
pub struct Selected {
    pub cost: u64,
    /// In the order in which they were offered.
    pub nodes: Seq<Name>,
}
