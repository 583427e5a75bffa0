//! Least walks from one node, over the arcs that it may use: what each node costs, and by which interfaces to begin.
//!
//! `paths` makes the table of a node's walks from its arcs, and `PathTable` tells the cost and the hops of each node.
//! What is right is said by walks alone: some walk has the given cost, none costs less, and the hops of a node are the
//! interfaces by which the least walks to it begin (`specs/Walk.antt`). The definitions that contracts cite are functions
//! of the arcs (`specs/Least.antt`, `specs/Table.antt`), and `walks_are_least` ensures that they say the same as the
//! words (`specs/Law.antt`). `local_is_right` ensures that what holds at each arc and each node alone is enough.
//! `slack_changes_keep_right` ensures that a table stays right where no arc that changes is on a least walk
//! (`specs/Slack.antt`), which `PathTable::stays` tells.
//!
//! `search` finds the costs, the cheapest node first. `rows` makes the rows, in the order of costs: the tight arcs of all
//! nodes by one walk over the arcs, and the hops of a node from those of the nodes before it. `scratch` puts the two
//! together, and `table` is what others see.
#![tactic(auto)]

ghost use Rattle.ls_spf.specs.Law.{CostsAreLeast, InterfacesAreFirst, LocalIsLeast, LeastIsLocal, UnionIsFirst};
ghost use Rattle.ls_spf.specs.Slack.{SlackChangesKeepRight};

mod rows;
mod scratch;
mod search;
mod table;

pub use scratch::paths;
pub use table::{PathRow, PathTable};

/// The functions of `specs/Least.antt` are what the words on walks say.
pub fn walks_are_least()
    ensures costs { CostsAreLeast }
    ensures interfaces { InterfacesAreFirst }
{}

/// What holds of costs at each arc and each node alone makes them the least, and holds of the least. Hops that tight
/// arcs hand on from node to node are those by which least walks begin.
pub fn local_is_right()
    ensures costs { LocalIsLeast }
    ensures back { LeastIsLocal }
    ensures hops { UnionIsFirst }
{}

/// A table that is right for some arcs is right for others too, where no arc that changes between them is on a least walk,
/// before or after. It does nothing.
pub fn slack_changes_keep_right()
    ensures { SlackChangesKeepRight }
{}
