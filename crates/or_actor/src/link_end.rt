use or_base::Name;

/// The end of a link at a node, as the modules of that node are given it.
#[derive(Clone, Drop)]
pub struct LinkEnd {
    /// The link's number.
    pub link: u32,
    /// The node at the other end.
    pub other: Name,
    /// The interface at this end.
    pub own_if: Name,
    /// The link's metric from this end, as it is declared.
    pub metric: u32,
}
