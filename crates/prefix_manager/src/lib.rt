//! PrefixManager advertises the prefixes of a node.
//!
//! It keeps an entry for each prefix that its node advertises, and aggregates, each of which stands for its prefix as long
//! as enough of the node's routes lie in it. It publishes them as the node's prefix record: the store of the node is
//! handed the record's text, which or_json writes, wherever it differs from the text handed last (own_record). Nothing is
//! published before the first prefix.
//!
//! A turn is one table: what each item makes of the entries, the aggregates and the routes (`advertising_after` of
//! `specs/PrefixManager.antt`), then what all of this advertises (`advertised`), and then what the store is handed.
//! `PrefixManagerModule` does exactly that. How many routes lie in an aggregate is kept beside it, so that a change of
//! routes costs what it changes, and not what there is.
//!
//! The files: `aggregate` (what lies in a prefix, and the counts), `advertising` (the state behind each item),
//! `prefix_manager` (the module).
#![tactic(auto)]

mod advertising;
mod aggregate;
mod prefix_manager;

pub use prefix_manager::PrefixManagerModule;
