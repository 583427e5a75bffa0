//! Which nodes a prefix is routed to, of those that offer it.
//!
//! Offers count where the node that offers is this one or can be reached; those of nodes that take no transit traffic are
//! left out, unless there are no others. Of what counts the best have the highest path preference, then the highest
//! source preference, then the lowest distance. Selected are the nearest of the best; a node that is among the best itself has
//! no route (`specs/Selection.antt`). `select` gives exactly that.
//!
//! Each step is a filter that leaves some of the offers in their order, so selecting takes no memory but for its answer.
//!
//! The files: `offer` (plain data), `choice`.
#![tactic(auto)]

ghost use Rattle.ls_select.specs.Laws.{SelectionIsSound, NothingSelected, SelectionIsWithinReach};

mod choice;
mod offer;

pub use choice::select;
pub use offer::{Offer, Selected};

/// There is a node in a selection; each is that of a best offer, to whose node a least walk costs what the selection does; and
/// all such are there. It does nothing.
pub fn selection_is_sound()
    ensures { SelectionIsSound }
{}

/// Nothing is selected exactly where no offer is within reach, or one of the best is of the node itself. It does nothing.
pub fn nothing_selected()
    ensures { NothingSelected }
{}

/// Offers that aren't within reach change nothing. It does nothing.
pub fn selection_is_within_reach()
    ensures { SelectionIsWithinReach }
{}
