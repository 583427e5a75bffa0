/// What the nodes of a laboratory are.
#[derive(Clone, Copy, Debug, PartialEq, Eq)]
pub enum Kind {
    /// Each node is a store.
    Stores,
    /// Each node has all the modules of a router.
    Full,
}
