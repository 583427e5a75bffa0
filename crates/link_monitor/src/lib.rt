//! LinkMonitor knows the neighbours of a node, and publishes them.
//!
//! Spark tells it of each neighbour that is found or lost, and it tells the node's store, which takes the neighbour for a
//! peer. It keeps for each link the metric, whether the link is drained, and for the node whether it is drained as a
//! whole. All of this is the node's link record: the store is handed the record's text, which or_json writes, wherever it
//! differs from the text handed last (own_record). Nothing is published before the first neighbour.
//!
//! A turn is one table: what each item makes of each link and what the store is told of it (`link_turn` of
//! `specs/LinkMonitor.antt`), and then what the store is handed. `LinkMonitorModule` does exactly that.
//!
//! The files: `link` (what is kept of a link, and a turn for it), `link_monitor` (the module).
#![tactic(auto)]

mod link;
mod link_monitor;

pub use link_monitor::LinkMonitorModule;
