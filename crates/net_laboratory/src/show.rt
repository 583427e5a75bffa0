/// What the report of a settle shows besides its line.
#[derive(Clone, Copy, Debug, PartialEq, Eq)]
pub enum Show {
    /// Every node's store, and in a full laboratory every node's routes.
    Both,
    /// Every node's store.
    Stores,
    /// In a full laboratory every node's routes.
    Routes,
    /// Nothing.
    Nothing,
}
