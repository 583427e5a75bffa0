//! The records that nodes publish, as a store's journal leaves them: link records under `adj:<node>` and prefix records under
//! `prefix:<node>`.
//!
//! A value is a node's record where its text is one (or_json), it is held under the key of the record's kind and node, and so
//! names that node (`specs/Records.antt`). `Records` keeps the records of a journal that grows, read: each entry costs the
//! reading of the one value that it brings, and what that record or the one before it lists. `take` tells what an entry
//! changed (`specs/Change.antt`): whether the arcs that the node may use are others, whether some node takes transit traffic
//! now or no longer, and the prefixes that may have other advertisers.
//!
//! The files: `reading` (what is held under a key, as a record), `links` (a node's link record in place of the one before),
//! `index` (who advertises a prefix), `advertised` (prefix records with that index), `change` and `records`.
#![tactic(auto)]

ghost use Rattle.ls_records.specs.Law.{AdvertisedHaveAdvertisers, RecordsAreHeld};
ghost use Rattle.ls_records.specs.Step.{EachEntryIsTaken};

mod advertised;
mod change;
mod index;
mod links;
mod reading;
mod records;

pub use change::RecordChange;
pub use records::Records;

/// A node has the record that is held under its key. It does nothing.
pub fn records_are_held()
    ensures { RecordsAreHeld }
{}

/// What is known after a journal and one entry more is what `take` leaves (`specs/Step.antt`). It does nothing.
pub fn each_entry_is_taken()
    ensures { EachEntryIsTaken }
{}

/// The advertised prefixes are in order, and are those that somebody advertises. It does nothing.
#[tactic(auto, using(crate::proofs::Listing::advertised_have_advertisers))]
pub fn advertised_have_advertisers()
    ensures { AdvertisedHaveAdvertisers }
{}
