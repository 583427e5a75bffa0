ghost use Rattle.std.specs.Prelude.{◌≡◌, ◌<◌, ◌^◌, ◌++◌, ◌∷◌, [], length, map, IfOk, OnOk, OnErr};

use crate::held::{HeldRow, held_rows, value_at};
use crate::keeping::{deadline_from, keep, keep_hash, merge_over, merged_at, newest};
use crate::offered::{Offered, exceeds};
use crate::slot::Slot;
use or_base::{Held, JournalEntry, Key, KvValue, NoMemory, Origin, Pair, is_valid_pair};
use or_timer::Wheel;
use std::alloc::Global;
use std::collections::BTreeMap;
use std::marker::Model;

/// A table of values. Contracts see its journal. Beside it the table keeps a slot for each held key and the deadlines of
/// the held keys, so that no call scans the journal.
#[derive(Drop)]
pub struct KvTable {
    entries: Vec<JournalEntry>,
    slots: BTreeMap<Key, Slot>,
    wheel: Wheel,
    /// Of what is held and was merged before this place the hashes are kept.
    hashed: usize,
}

impl Model for KvTable {
    ghost use Rattle.std.specs.Prelude.{List};
    ghost use Rattle.or_base.specs.declared.entry.JournalEntry.{JournalEntry};
    ghost use Rattle.kv_table.specs.Slots.{IsKeptFor};

    ghost Value = { List JournalEntry };

    ghost view = { λ table. table.entries.items };

    ghost invariant = { λ table. IsKeptFor table.entries.items table.slots.entries table.wheel };
}

impl KvTable {
    ghost use Rattle.std.specs.Option.{option_map};
    ghost use Rattle.or_base.specs.declared.entry.JournalEntry.TheVariants.{Merged, Cleared};
    ghost use Rattle.or_base.specs.Journal.{holds, held_keys, offer};
    ghost use Rattle.kv_table.specs.Offered.{offered_of};
    ghost use Rattle.kv_table.specs.Expiry.{keys_lost, expire};
    ghost use Rattle.kv_table.specs.Held.{with_hash, row_shown, held_rows};

    /// A table that holds nothing.
    pub fn new(alloc: Global) -> Result<KvTable, NoMemory>
        ensures { IfOk result (λ table. table ≡ []) }
    {
        Ok(KvTable {
            entries: Vec::new(alloc),
            slots: BTreeMap::new(alloc),
            wheel: Wheel::new(alloc),
            hashed: 0,
        })
    }

    /// The allocator of what the table gives.
    pub(crate) fn alloc(&self) -> Global {
        *self.entries.allocator()
    }

    /// Every change of the table, from the oldest to the newest.
    pub fn journal(&self) -> &[JournalEntry]
        ensures entries { result.now ≡ self.now }
        ensures small { length result.now < 2 ^ 63 }
    {
        self.entries.as_slice()
    }

    /// Every change of the table, as a vector. It takes no memory.
    pub fn into_journal(self) -> Vec<JournalEntry>
        ensures { result.items ≡ self }
    {
        self.entries
    }

    /// What is held under the key, by its slot.
    fn get_by_slot(&self, key: &Key) -> Option<Held<'_>>
        ensures { option_map (λ held. (held.value.now, held.merged_at)) result ≡ holds self.now key.now }
    {
        let slot = self.slots.get(key)?;
        merged_at(self.entries.as_slice(), slot.place)
    }

    /// What is held under the key. The newest entry is looked at first, since a store sends what it has just merged. It
    /// takes no memory.
    pub fn get(&self, key: &Key) -> Option<Held<'_>>
        ensures { option_map (λ held. (held.value.now, held.merged_at)) result ≡ holds self.now key.now }
    {
        match newest(self.entries.as_slice(), key) {
            Some(held) => Some(held),
            None => self.get_by_slot(key),
        }
    }

    /// The value that is held under the key, with its hash, which is made where none is kept yet. It takes no memory.
    pub fn value_with_hash(&self, key: &Key) -> Option<(&KvValue, u64)>
        ensures { option_map (λ found. (found.0.now, found.1)) result ≡ option_map with_hash (holds self.now key.now) }
    {
        let slot = self.slots.get(key)?;
        value_at(self.entries.as_slice(), *slot)
    }

    /// Each held key with its value and the value's hash, in byte order of keys. A value is hashed where no hash of it
    /// is kept yet.
    pub fn held_rows(&self) -> Result<Vec<HeldRow<'_>>, NoMemory>
        ensures { IfOk result (λ rows. map row_shown rows.items ≡ held_rows self.now) }
    {
        held_rows(self.alloc(), self.entries.as_slice(), &self.slots)
    }

    /// Keeps the hash of the value that was merged at the place, if the value is held and has none yet.
    fn keep_hash(&mut self, place: usize) -> Result<(), NoMemory>
        ensures { self.new ≡ self.old }
    {
        keep_hash(&mut self.slots, self.entries.as_slice(), place)
    }

    /// Hashes each held value that has no hash yet, and keeps the hash, so that `digest`, `held_rows` and
    /// `value_with_hash` needn't make it. It looks at what was merged since it was last called. Where memory runs out
    /// the hashes so far are kept.
    pub fn keep_hashes(&mut self) -> Result<(), NoMemory>
        ensures { self.new ≡ self.old }
    {
        for place in self.hashed..self.entries.len() {
            self.keep_hash(place)?;
        }
        self.hashed = self.entries.len();
        Ok(())
    }

    /// The keys under which something is held, each once and in byte order.
    pub fn held_keys(&self) -> Result<Vec<Key>, NoMemory>
        ensures { IfOk result (λ keys. keys.items ≡ held_keys self.now) }
    {
        let mut keys = Vec::new(self.alloc());
        for key in self.slots.keys() {
            keys.push(key.copied()?)?;
        }
        Ok(keys)
    }

    /// Merges a pair whose key has no slot. Where memory runs out the table stays as it was: all of it is taken before the
    /// journal changes.
    fn merge(&mut self, pair: Pair, now: u64, origin: Origin) -> Result<(), NoMemory>
        ensures ok { OnOk result (self.new ≡ self.old ++ Merged pair now origin ∷ []) }
        ensures err { OnErr result (self.new ≡ self.old) }
    {
        self.entries.reserve(1)?;
        let slot = Slot {
            place: self.entries.len(),
            hash: None,
        };
        let deadline = deadline_from(now, pair.value.ttl);
        keep(&mut self.slots, &mut self.wheel, &pair.key, slot, deadline)?;
        self.entries.push_reserved(JournalEntry::Merged {
            pair,
            at: now,
            origin,
        });
        Ok(())
    }

    /// Merges the pair if it is within the limits and its value exceeds what is held under its key, and tells what
    /// became of it. `now` is the moment in milliseconds. The pair is copied where it is merged. Where memory runs out the
    /// table stays as it was.
    #[tactic(auto, using(crate::proofs::Changes::kept_same, crate::proofs::Changes::kept_over))]
    pub fn offer(&mut self, pair: &Pair, now: u64, origin: Origin) -> Result<Offered, NoMemory>
        ensures answer { IfOk result (λ offered. offered ≡ offered_of self.old pair.now) }
        ensures ok { OnOk result (self.new ≡ offer self.old pair.now now origin) }
        ensures err { OnErr result (self.new ≡ self.old) }
    {
        if !is_valid_pair(pair) {
            return Ok(Offered::Invalid);
        }
        match self.slots.get_mut(&pair.key) {
            None => self.merge(pair.copied()?, now, origin)?,
            Some(slot) => {
                if !exceeds(&pair.value, merged_at(self.entries.as_slice(), slot.place)) {
                    return Ok(Offered::Kept);
                }
                merge_over(slot, &mut self.entries, &mut self.wheel, pair, now, origin)?;
            }
        }
        Ok(Offered::Changed)
    }

    /// Loses each key whose deadline is at most `now`, by deadline and then by key, and tells how many. A key's deadline
    /// is the moment of its merge and its time to live; what is held for ever has none. Where memory runs out the table
    /// stays as it was.
    pub fn expire(&mut self, now: u64) -> Result<u64, NoMemory>
        ensures count { IfOk result (λ n. n ≡ length (keys_lost self.old now)) }
        ensures ok { OnOk result (self.new ≡ expire self.old now) }
        ensures err { OnErr result (self.new ≡ self.old) }
    {
        let count = self.wheel.count_due(now);
        self.entries.reserve(count)?;
        for key in self.wheel.due(now)? {
            let _slot = self.slots.remove(&key);
            self.entries
                .push_reserved(JournalEntry::Expired { key, at: now });
        }
        Ok(count as u64)
    }

    /// Loses all that is held, as a store that restarts at the moment `now` does. Where memory runs out the table stays
    /// as it was.
    pub fn clear(&mut self, now: u64) -> Result<(), NoMemory>
        ensures ok { OnOk result (self.new ≡ self.old ++ Cleared now ∷ []) }
        ensures err { OnErr result (self.new ≡ self.old) }
    {
        self.entries.push(JournalEntry::Cleared { at: now })?;
        self.slots.clear();
        self.wheel.clear();
        Ok(())
    }
}
