//! Decision of a node: it computes the node's routes from the records that its store holds.
//!
//! Decision is told of each entry of its store's journal, and keeps them in order. Its routes are defined from scratch, from
//! these entries alone (`specs/Scratch.antt`): the records that are held, the links that both ends report, least walks over
//! them, and for each prefix the nodes that are selected of those that advertise it. A turn tells PrefixManager and Fib what
//! changes (`specs/Decision.antt`). `DecisionModule` does exactly that.
//!
//! The files: `offers` (who offers a prefix), `route` (where one prefix is routed), `reach` (at which prefixes
//! routes may be others after an entry), `changed` (what changes there), `routing` (all that is known, with the routes that
//! follow), `history` (the routes that were replaced), `from_scratch` (the routes over some entries) and `decision` (the module).
#![tactic(auto)]

ghost use Rattle.decision_core.specs.Law.{RoutesAreByPrefix};

mod changed;
mod decision;
mod from_scratch;
mod history;
mod offers;
mod reach;
mod route;
mod routing;

pub use decision::{DecisionModule, route_told};
pub use from_scratch::scratch;

/// The routes from scratch are a table, which has for each prefix its route. It does nothing.
pub fn routes_are_by_prefix()
    ensures { RoutesAreByPrefix }
{}
