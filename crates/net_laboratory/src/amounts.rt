use or_base::{Key, Name, Prefix};

/// A key that is owned, and the node that owned it first.
#[derive(Drop)]
pub struct KeyOwner {
    pub key: Key,
    pub node: Name,
}

/// A prefix that a node advertises or aggregates.
#[derive(Drop)]
pub struct NodePrefix {
    pub node: Name,
    pub prefix: Prefix,
}
