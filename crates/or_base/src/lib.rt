//! The types that every layer shares, and the meaning of a store.
//!
//! A store is its journal: the list of what was merged, what expired and when the store was cleared. What it
//! holds under a key is read from the journal's end (`holds`), and an offered pair is merged exactly where it is
//! within the limits and exceeds what is held (`offer`). Both are defined in `specs/Journal.antt`, the order of
//! values in `specs/Order.antt`, the limits in `specs/Limits.antt`. What is proved of stores above rests on
//! `offers_hold_greatest`: after any list of offers a store holds the greatest value offered, so any order of the
//! same offers leaves the same values.
//!
//! The files: `memory` (the error that memory ran out, and copying), `text` and `seq` (newtypes that contracts see
//! as lists), `prefix` (a prefix has no bit past its length; the order of prefixes), `value`, `entry`, `held`, `message`, `act`,
//! `database`, `digest`, `route`, `session`, `asked`, `item` (plain data that contracts see as it is), `turn` (a turn that was done, without its item's bytes), `journal` (what
//! computes the journal's definitions), `limits`, and the streams: `stream` (the traits), `memory_stream` (fakes that
//! fail on request), `real_stream` (sources and sinks over std's readers and writers). But for a prefix no type here
//! keeps a limit: `limits` tests them. `specs/ByLink.antt` and `specs/Counting.antt` have words that several crates use.
#![tactic(auto)]

ghost use Rattle.or_base.specs.Law.{HoldsGreatest, LeavesSameInAnyOrder, HeldKeysAreThese};

mod act;
mod asked;
mod database;
mod digest;
mod entry;
mod held;
mod item;
mod journal;
mod kind;
mod limits;
mod memory;
mod memory_stream;
mod message;
mod origin;
mod prefix;
mod real_stream;
mod route;
mod seq;
mod session;
mod stream;
mod text;
mod turn;
mod value;

pub use act::Act;
pub use asked::{Asked, Told};
pub use database::{AdjDb, Adjacency, PrefixDb, PrefixEntry};
pub use digest::DigestRow;
pub use entry::JournalEntry;
pub use held::Held;
pub use item::{Item, Stamped};
pub use journal::{held_keys, holds, insert_key};
pub use kind::Kind;
pub use limits::{
    MOST_ADJACENCIES, MOST_INTERFACE_NAME_BYTES, MOST_KEY_BYTES, MOST_LIFETIME, MOST_METRIC,
    MOST_NODE_NAME_BYTES, MOST_PREFERENCE, MOST_PREFIX_ENTRIES, MOST_TTL_VERSION, MOST_VALUE_BYTES,
    MOST_VERSION, has_key_bytes, has_name_bytes, is_interface_name, is_key, is_node_name,
    is_valid_pair,
};
pub use memory::{Copied, NoMemory};
pub use memory_stream::{MemSink, MemSource, SINK_BYTES};
pub use message::Msg;
pub use origin::Origin;
pub use prefix::Prefix;
pub use real_stream::{RealSink, RealSource};
pub use route::{Delta, Route};
pub use seq::{Seq, copied_items};
pub use session::SyncDone;
pub use stream::{ReadFault, Sink, Source, WriteFault};
pub use text::{Bytes, Key, Name, is_among};
pub use turn::TurnDone;
pub use value::{KvValue, Pair};

/// The law of offers. After a list of offers, what is held under a key is the greatest of what was held and of
/// the valid values that were offered under it; lists with the same offers, in any order and any number of times
/// each, leave values that are the same but for their lifetime.
pub fn offers_hold_greatest()
    ensures greatest { HoldsGreatest }
    ensures any_order { LeavesSameInAnyOrder }
{}

/// The keys that a journal holds are in byte order, each once, and exactly those under which something is held.
pub fn held_keys_are_these()
    ensures { HeldKeysAreThese }
{}
