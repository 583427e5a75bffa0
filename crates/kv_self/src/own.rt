use or_base::Bytes;

/// What a node wants to stand under a key that it owns.
#[derive(Clone, Drop)]
pub struct OwnValue {
    pub value: Bytes,
    /// The time to live in milliseconds; None means for ever.
    pub ttl: Option<u64>,
}
