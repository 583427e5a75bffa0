//! The link between two nodes, as a module.
//!
//! A link is down at first. Up and down are told at both ends, end a first. A link is of its laboratory's kind: among
//! stores it tells the store of an end that the node at the other end can be reached, or no longer; in a full laboratory it
//! tells Spark there that the link carries, or no longer, and Spark finds the node itself. While it is up, it forwards a
//! message from one end to the module at the other for which it is: Spark's messages to Spark, all others to the store.
//! While it is down, messages are lost.
//!
//! Each direction has a script, one act for each of the next messages: the link forwards the message, drops it, forwards
//! it twice, or holds it back until so many further messages of its direction have come (`direction`, over the plain
//! bodies in `holding`). A tick forwards all that is held back, and going down loses it. All that holds of both ends alike
//! is said once, of an `End`. The step is in `specs/Link.antt`, and `LinkModule` does exactly that step. No step makes a
//! message up, and each goes to the module at the other end for which it is (`links_make_nothing_up`, `specs/Flow.antt`).
#![tactic(auto)]

ghost use Rattle.net_link.specs.Flow.{LinksMakeNothingUp};

mod direction;
mod end;
mod held;
mod holding;
mod link;

pub use link::LinkModule;

/// No turn of a link makes a message up: what it holds back and what it sends it held back before, or it came; and each
/// message goes to the module at the other end for which it is. A link stays of its kind.
pub fn links_make_nothing_up()
    ensures { LinksMakeNothingUp }
{}
