ghost use Rattle.std.specs.Prelude.{◌≡◌, IfOk, OnOk};
ghost use Rattle.std.specs.BTreeSet.{insert_key};
ghost use Rattle.std.specs.Option.{option_map};
ghost use Rattle.or_base.specs.Order.{bytes_cmp};
ghost use Rattle.or_base.specs.Journal.{holds, merged_keys, held_keys};

use crate::entry::JournalEntry;
use crate::held::Held;
use crate::memory::NoMemory;
use crate::text::Key;
use std::alloc::Global;
use std::cmp::Ordering;

/// What a store with this journal holds under a key: the first entry from the end that is Cleared or names the
/// key decides. It takes no memory.
#[tactic(auto, using(crate::proofs::Offers::holds_push))]
pub fn holds<'a>(journal: &'a [JournalEntry], key: &Key) -> Option<Held<'a>>
    ensures { option_map (λ held. (held.value.now, held.merged_at)) result ≡ holds journal.now key.now }
{
    let mut left = journal;
    while let Some((entry, older)) = left.split_last() {
        match entry {
            JournalEntry::Merged { pair, at, .. } => {
                if pair.key.as_str() == key.as_str() {
                    return Some(Held {
                        value: &pair.value,
                        merged_at: *at,
                    });
                }
            }
            JournalEntry::Expired { key: name, .. } => {
                if name.as_str() == key.as_str() {
                    return None;
                }
            }
            JournalEntry::Cleared { .. } => return None,
        }
        left = older;
    }
    None
}

/// Adds a key to keys in byte order, unless it is there.
#[tactic(auto, using(crate::proofs::Keys::with_key_steps))]
pub fn insert_key(keys: &mut Vec<Key>, key: &Key) -> Result<(), NoMemory>
    ensures { OnOk result (keys.new.items ≡ insert_key bytes_cmp keys.old.items key.now) }
{
    for place in 0..keys.len() {
        let first = &keys[place];
        match key.as_str().cmp(&first.as_str()) {
            Ordering::Less => {
                keys.insert(place, key.copied()?)?;
                return Ok(());
            }
            Ordering::Equal => return Ok(()),
            Ordering::Greater => {}
        }
    }
    keys.push(key.copied()?)?;
    Ok(())
}

/// The keys that the journal merged, each once and in byte order.
fn merged_keys(alloc: Global, journal: &[JournalEntry]) -> Result<Vec<Key>, NoMemory>
    ensures { IfOk result (λ keys. keys.items ≡ merged_keys journal.now) }
{
    let mut keys = Vec::new(alloc);
    for entry in journal {
        if let JournalEntry::Merged { pair, .. } = entry {
            insert_key(&mut keys, &pair.key)?;
        }
    }
    Ok(keys)
}

/// The keys under which a store with this journal holds something, each once and in byte order.
pub fn held_keys(alloc: Global, journal: &[JournalEntry]) -> Result<Vec<Key>, NoMemory>
    ensures { IfOk result (λ keys. keys.items ≡ held_keys journal.now) }
{
    let mut held = Vec::new(alloc);
    for key in merged_keys(alloc, journal)? {
        if holds(journal, &key).is_some() {
            held.push(key)?;
        }
    }
    Ok(held)
}
