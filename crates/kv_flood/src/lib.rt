//! To whom a store floods, and what.
//!
//! A flood names the nodes that it has passed, so that it runs in no circle. `flood_target` says whether it goes on
//! to a peer: one that is neither this node nor among those passed. `flood_message` makes the flood of some keys of a
//! table at a moment: for each key, in the order given, what kv_table's `sent_pairs` gives, which is what is held under
//! it, with the lifetime that is left less one millisecond; a key that isn't held, or whose lifetime is used up, sends
//! nothing.
//! Where nothing is sent there is no flood. The flood's list of passed nodes is the one given, followed by this node.
//! The promise is that both answer exactly what `specs/Flooding.antt` defines over the table's journal; only
//! `flood_message` can run out of memory.
//!
//! The files: `target` (to whom), `message` (what).
#![tactic(auto)]

mod message;
mod target;

pub use message::flood_message;
pub use target::flood_target;
