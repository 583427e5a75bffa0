ghost use Rattle.std.specs.Prelude.{◌≡◌, ◌<◌, ◌+◌, length, map, min, IfOk, OnOk, OnErr};
ghost use Rattle.kv_table.specs.Index.{Taken, ArePlacesOf, entries_taken, held_pairs, told_at};

use or_base::{JournalEntry, Key, NoMemory};
use std::alloc::Global;
use std::collections::BTreeMap;
use std::marker::Model;

/// What the first entries of a journal hold, as many as are taken: for each held key the place of its merge. Contracts see
/// the journal and how many entries are taken.
#[derive(Drop)]
pub struct HeldIndex<'a> {
    journal: &'a [JournalEntry],
    count: usize,
    places: BTreeMap<Key, usize>,
}

impl<'a> Model for HeldIndex<'a> {
    ghost use Rattle.kv_table.specs.Index.{Taken, IsKeptOf};

    ghost Value = { Taken };

    ghost view = { λ i. record { journal = i.journal.now; count = i.count } };

    ghost invariant = { λ i. IsKeptOf (record { journal = i.journal.now; count = i.count }) i.places.entries };
}

/// Changes the places of what the entries before a place hold to those of what the entries up to it hold.
#[tactic(auto, using(crate::proofs::Indexes::entry_taken))]
fn take_entry(
    places: &mut BTreeMap<Key, usize>,
    journal: &[JournalEntry],
    place: usize,
) -> Result<(), NoMemory>
    requires within { place < length journal.now }
    requires before { ArePlacesOf (record { journal = journal.now; count = place }) places.old.entries }
    ensures ok { OnOk result (ArePlacesOf (record { journal = journal.now; count = place + 1 }) places.new.entries) }
    ensures err { OnErr result (places.new.entries ≡ places.old.entries) }
{
    match &journal[place] {
        JournalEntry::Merged { pair, .. } => {
            let name = pair.key.copied()?;
            places.insert(name, place)?;
        }
        JournalEntry::Expired { key, .. } => {
            let _place = places.remove(key);
        }
        JournalEntry::Cleared { .. } => places.clear(),
    }
    Ok(())
}

impl<'a> HeldIndex<'a> {
    /// An index of the journal that has taken no entry yet.
    pub fn new(alloc: Global, journal: &'a [JournalEntry]) -> HeldIndex<'a>
        ensures { result ≡ record { journal = journal.now; count = 0 } }
    {
        HeldIndex {
            journal,
            count: 0,
            places: BTreeMap::new(alloc),
        }
    }

    /// The journal, whether its entries are taken or not.
    pub fn journal(&self) -> &'a [JournalEntry]
        ensures { result.now ≡ self.now.journal }
    {
        self.journal
    }

    /// Takes the next entry. Where memory runs out nothing is taken.
    fn take_next(&mut self) -> Result<(), NoMemory>
        requires { self.old.count < length self.old.journal }
        ensures ok { OnOk result (self.new ≡ record { journal = self.old.journal; count = self.old.count + 1 }) }
        ensures err { OnErr result (self.new ≡ self.old) }
    {
        take_entry(&mut self.places, self.journal, self.count)?;
        self.count += 1;
        Ok(())
    }

    /// Has taken no entry again.
    fn restart(&mut self)
        ensures { self.new ≡ record { journal = self.old.journal; count = 0 } }
    {
        self.places.clear();
        self.count = 0;
    }

    /// Takes entries until as many as these are taken, or all. Only where more were taken does it begin anew, so calls with
    /// counts that rise read each entry once.
    pub fn take_up_to(&mut self, count: usize) -> Result<(), NoMemory>
        ensures journal { self.new.journal ≡ self.old.journal }
        ensures ok { OnOk result (self.new.count ≡ min count (length self.old.journal)) }
    {
        if count < self.count {
            self.restart();
        }
        for _place in self.count..count.min(self.journal.len()) {
            self.take_next()?;
        }
        Ok(())
    }

    /// For each key that the entries taken hold the place of its merge, in byte order of keys.
    pub fn places(&self) -> &BTreeMap<Key, usize>
        ensures { map (told_at self.now.journal) result.now.entries ≡ held_pairs (entries_taken self.now) }
    {
        &self.places
    }
}
