/// How a pair came to the store that merged it.
#[derive(Clone, Copy, Debug, PartialEq, Eq)]
pub enum Origin {
    /// Set at this node.
    Local,
    /// A key that this node owns.
    Own,
    /// Flooded by a peer.
    Flood,
    /// In the reply of a full sync that this node started.
    SyncReply,
    /// In the push that ends a full sync which a peer started.
    SyncPush,
}
