ghost use Rattle.std.specs.Prelude.{◌≡◌, ◌++◌, map, IfOk, OnOk};
ghost use Rattle.std.specs.Option.{option_map, option_to_list};
ghost use Rattle.kv_table.specs.Index.{merged_at};
ghost use Rattle.kv_table.specs.Held.{with_hash, row_shown, held_rows};
ghost use Rattle.kv_table.specs.Slots.{HasItsHash, AreSlotsOf, row_in};

use crate::keeping::merged_at;
use crate::slot::Slot;
use kv_value::hash_of;
use or_base::{JournalEntry, Key, KvValue, NoMemory};
use std::alloc::Global;
use std::collections::BTreeMap;

/// A held key with its value and the value's hash.
#[derive(Clone, Copy)]
pub struct HeldRow<'a> {
    pub key: &'a Key,
    pub value: &'a KvValue,
    pub hash: u64,
}

/// The value that was merged at the place of a slot, with its hash. It is hashed only where the slot has no hash.
pub(crate) fn value_at(journal: &[JournalEntry], slot: Slot) -> Option<(&KvValue, u64)>
    requires { HasItsHash journal.now slot }
    ensures { option_map (λ found. (found.0.now, found.1)) result
        ≡ option_map with_hash (merged_at journal.now slot.place) }
{
    let held = merged_at(journal, slot.place)?;
    let hash = match slot.hash {
        Some(hash) => hash,
        None => hash_of(held.value),
    };
    Some((held.value, hash))
}

/// Appends the key with the value that was merged at the place of its slot, and with the hash of that.
fn add_row<'a>(
    rows: &mut Vec<HeldRow<'a>>,
    journal: &'a [JournalEntry],
    key: &'a Key,
    slot: Slot,
) -> Result<(), NoMemory>
    requires { HasItsHash journal.now slot }
    ensures { OnOk result (map row_shown rows.new.items
        ≡ map row_shown rows.old.items ++ option_to_list (row_in journal.now (key.now, slot))) }
{
    if let Some((value, hash)) = value_at(journal, slot) {
        rows.push(HeldRow { key, value, hash })?;
    }
    Ok(())
}

/// Each held key with its value and the hash of that, in byte order of keys, by one walk over the slots.
pub(crate) fn held_rows<'a>(
    alloc: Global,
    journal: &'a [JournalEntry],
    slots: &'a BTreeMap<Key, Slot>,
) -> Result<Vec<HeldRow<'a>>, NoMemory>
    requires { AreSlotsOf journal.now slots.now.entries }
    ensures { IfOk result (λ rows. map row_shown rows.items ≡ held_rows journal.now) }
{
    let mut rows = Vec::with_capacity(alloc, slots.len())?;
    for (key, slot) in slots {
        add_row(&mut rows, journal, key, *slot)?;
    }
    Ok(rows)
}
