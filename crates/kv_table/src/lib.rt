//! A table of values, one under each key, whose journal is its meaning.
//!
//! A store offers it pairs and looks values up. An offer is merged exactly where the pair is within the limits and its
//! value exceeds what is held under its key (`offer`, defined in or_base); every merge is an entry at the end of the
//! journal, with its moment and its origin. Keys with a lifetime are lost when their deadline is reached, with an entry
//! for each (`expire`, defined in `specs/Expiry.antt`), and a store that restarts loses all of them with one entry
//! (`clear`); nothing else changes the table. What it sends of keys, with the lifetime that is left, is defined in
//! `specs/Sending.antt`, the rows of what is held in `specs/Held.antt`, and the digest that tells of it without its
//! values in `specs/Digest.antt`. Contracts see the table as its journal. Beside the journal the table keeps, as the
//! invariant of its type (`specs/Slots.antt`), for each held key the place of its merge and, once something needed it,
//! the hash of its value, and in a `Wheel` of or_timer the deadlines of the held keys. So `get` and `offer` cost a few
//! steps in an ordered map, `expire` goes through what is due alone, and `held_rows` and `digest` walk over the slots
//! with no look-up. A merge hashes nothing; `keep_hashes`, called before a digest, sees to it that a value is hashed
//! once, where a digest first needs it. The promise is that `get` is `holds` and `offer` is `offer` of or_base, to the
//! entry; the law that the greatest value offered is held follows from or_base's `offers_hold_greatest`.
//!
//! A `HeldIndex` is the same for a reader of a journal: it takes the journal's entries, and tells for each key that
//! these hold the place of its merge. Slots and places are both indexes of a journal (`IsIndexOf`, `specs/Index.antt`).
//!
//! The files: `digest` (what the table tells of itself), `held` (the rows of what is held), `index` (what the first
//! entries of a journal hold), `keeping` (what is kept beside the journal as it changes), `offered` (what becomes of an
//! offer), `sending` (what is sent of keys), `slot` (plain data), `table`.
#![tactic(auto)]

mod digest;
mod held;
mod index;
mod keeping;
mod offered;
mod sending;
mod slot;
mod table;

pub use held::HeldRow;
pub use index::HeldIndex;
pub use keeping::merged_at;
pub use offered::Offered;
pub use or_base::Held;
pub use table::KvTable;
