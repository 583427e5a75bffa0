//! Three-way full syncs between two stores.
//!
//! A sync makes two stores hold the same values. Its starter sends a digest of what it holds (Dump). The peer compares
//! the digest with what it holds itself (`diff`) and sends what is better there, the keys that it wants, and the length
//! of its journal (Reply, by `reply_to`). The starter sends what was wanted (Push), and the peer acknowledges it (Ack, by
//! `ack`). `Sessions` keeps the running sessions of the starter, one a link, each with the lengths of both journals and
//! how many pairs were withheld because their lifetime was too short. A session is Dumped until its reply arrives, then
//! Pushed until its acknowledgement arrives. A message with another number or phase than the link's running session is
//! stale, and changes nothing.
//!
//! The promises are that `diff` gives exactly the lists of `specs/Difference.antt` and every message is that of
//! `specs/Messages.antt`, over the table's journal; that each call does what `specs/Sessions.antt` defines, and is stale
//! exactly there; and that a session's number isn't used again (`numbers_are_new`): until the counter saturates, numbers
//! rise with each start, and no two running sessions share one; and that a running session goes from Dumped to Pushed
//! and ends as said (`sessions_go_on`).
//!
//! `diff` walks the rows and what is held side by side, once and both in byte order of keys, and takes the hash of a held
//! value from the table. So each row and each held key takes at most one step, and no look-up. Rows may come in any order
//! and name a key more than once. Where they do, the first row of each key is put in order before, by an ordered map.
//!
//! The files: `difference` (how a digest differs from a table), `messages` (replies and acknowledgements), `rows` (the rows
//! of a digest in byte order of keys), `session` (plain data), `sessions` (those that run).
#![tactic(auto)]

ghost use Rattle.kv_sync.specs.Law.{NumbersAreNew, SessionsGoOn};

mod difference;
mod messages;
mod rows;
mod session;
mod sessions;

pub use difference::{Difference, diff};
pub use messages::{ack, reply_to};
pub use session::{Session, Stale, SyncPhase};
pub use sessions::Sessions;

/// The law of numbers: whatever is done with sessions, as long as the numbers given stay below 2^64 each session that
/// starts has a number above all that were given before, and as long as they stay below 2^64 - 1 no two that run share
/// one.
pub fn numbers_are_new()
    ensures { NumbersAreNew }
{}

/// The law of sessions: whatever is done, a running session keeps its number, its peer and the length of its starter's
/// journal, and goes from Dumped to Pushed and not back, until it ends. It ends by an acknowledgement that arrives for it
/// once it is Pushed, as its link or all links are dropped, and as a new one takes its place.
pub fn sessions_go_on()
    ensures { SessionsGoOn }
{}
