//! The links of a network as one node may use them.
//!
//! A link is used in one direction as an arc. An adjacency that a node reports is an arc where the node at the other end
//! reports the same link, so that a link that one end alone reports is never used. An arc is usable where both ends take
//! traffic over it, and the node that it leaves carries transit traffic or is the node that computes (`specs/Arcs.antt`).
//!
//! A `LinkState` has the databases that nodes reported, and the arcs in force. `put` and `remove` change a database and
//! give what changes of the arcs (`specs/Changes.antt`); `apply` puts one change in force, and `settle` all of them. A change
//! of one node's database changes arcs only at the ends of the links that its old or its new database reports: `ends` lists
//! these places, `changes` compares the arcs there, `usable` tells the arc of a place from the databases (`later` has them as
//! they will be), and `search` finds it among the arcs in force.
#![tactic(auto)]

ghost use Rattle.ls_graph.specs.Changes.{ChangesLeadOn, NoChangeIsNone, ChangesGoOn};
ghost use Rattle.ls_graph.specs.State.{UsableArcsAreThese};

mod arc;
mod change;
mod changes;
mod ends;
mod later;
mod search;
mod state;
mod usable;

pub use arc::Arc;
pub use change::LinkChange;
pub use state::LinkState;

/// The law of changes. Changes from some arcs to others, put in force one after another, lead from the ones to the others. It
/// does nothing.
pub fn changes_lead_on()
    ensures { ChangesLeadOn }
{}

/// Where nothing changes from some arcs to others, they are the same. It does nothing.
pub fn no_change_is_none()
    ensures { NoChangeIsNone }
{}

/// The usable arcs of sound databases are exactly those adjacencies that `me` may use, in the order of their places, each
/// between two nodes, with a metric within its limit. It does nothing.
pub fn usable_arcs_are_these()
    ensures { UsableArcsAreThese }
{}

/// Between two changes that are put in force one after another, the arcs are in order, each of them is of the first or of the
/// last ones, and the next change fits them. It does nothing.
pub fn changes_go_on()
    ensures { ChangesGoOn }
{}
