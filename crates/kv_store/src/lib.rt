//! A node's store, as a module.
//!
//! A store keeps its journal in a `KvTable`, its node's own keys in an `Owned`, and its peers by link. An item changes the
//! journal, the own keys or the peers: a tick sets the moment, begins lifetimes under own keys anew that are due and lets
//! expire what is over, a set offers a pair, a flood that hasn't passed this node offers its pairs, as do the messages of a
//! full sync, keys are owned and disowned, peers come and go, and a restart loses what is held. Then the node writes its own
//! value again under its keys that the turn changed and where another's value, or none, is held now. Then the store responds
//! to the item: to a peer that comes, an order of the user and a restart with a full sync, and to its messages with the next
//! one. Then what was merged is flooded with the value now held: a key that this node set or owns begins a flood to every
//! peer, and a key that came from a peer is passed on to the peers that the flood hasn't passed. Last, a full node's store
//! tells Decision of each new entry. The step is in `specs/Store.antt`, over the journal, the own keys, the peers and the
//! running sessions alone, with a row for each item and each message; what is written under own keys is in `specs/Own.antt`.
//! `KvModule` does exactly that step. Its type keeps that the links of its peers have numbers below 2^31, so that each has a
//! port.
//!
//! The files: `offers` (pairs offered in order), `own` (what is written under own keys), `response` (what a store has to
//! respond with), `answers` (the messages of full syncs), `floods` (what a turn floods), `store` (the module).
#![tactic(auto)]

ghost use Rattle.kv_store.specs.Growth.{JournalsGrow};
ghost use Rattle.kv_store.specs.Numbered.{NumbersStayApart};

mod answers;
mod floods;
mod offers;
mod own;
mod response;
mod store;

pub use store::KvModule;

/// A turn only adds to a store's journal.
pub fn journals_grow()
    ensures { JournalsGrow }
{}

/// The full syncs that a store started, those that run and those that were finished, have numbers of their own, as long as
/// the counter of numbers doesn't saturate; and what was finished stays finished.
pub fn numbers_stay_apart()
    ensures { NumbersStayApart }
{}
