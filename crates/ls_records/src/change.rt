use ls_graph::LinkChange;
use or_base::{Name, Prefix};

/// What an entry changed of the records.
#[derive(Drop)]
pub struct RecordChange {
    /// No record is left. Then nothing else is told.
    pub cleared: bool,
    /// What changes of the arcs that the node may use, in the order of their places.
    pub links: Vec<LinkChange>,
    /// The node that takes transit traffic now and didn't, or no longer does.
    pub transit: Option<Name>,
    /// The prefixes that may have other advertisers, or others of their entries, in order.
    pub prefixes: Vec<Prefix>,
}
