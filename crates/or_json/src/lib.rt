//! The records that nodes publish, as text: link records under `adj:<node>` and prefix records under `prefix:<node>`.
//!
//! A record is written as JSON (RFC 8259) without spaces, its members in a fixed order (`specs/Writing.antt`). A text
//! is read wherever `serde_json` reads it and what it says keeps the limits, with members in any order and others
//! ignored (`specs/Reading.antt`). The functions write exactly that text and give exactly that reading, None included,
//! and the text of a record that keeps the limits has that record as its reading.
//!
//! The files: `member` (single members, written by the writer of `json`, which keeps their order), `object` (single
//! members, read), `items` (the list of items that a record has, over the trait `RecordItem`), `adjacency` and
//! `prefix_entry` (the two kinds of items), `adj_write`, `prefix_write`, `adj_read` and `prefix_read`, and `keys`. That a text is
//! read again is proved over the definitions, in `proofs/ItemsAgain.antt`, `LinksAgain.antt` and `PrefixesAgain.antt`.
#![tactic(auto)]

mod adj_read;
mod adj_write;
mod adjacency;
mod items;
mod keys;
mod member;
mod object;
mod prefix_entry;
mod prefix_read;
mod prefix_write;

pub use adj_read::adj_of;
pub use adj_write::adj_text;
pub use keys::{link_record_key, prefix_record_key};
pub use prefix_read::prefixes_of;
pub use prefix_write::prefixes_text;
