ghost use Rattle.std.specs.Prelude.{◌≡◌, ◌++◌, ◌∷◌, [], length, Some, IfSome, OnOk, OnErr};
ghost use Rattle.std.specs.Option.{option_map};
ghost use Rattle.std.specs.BTreeMap.{insert_entry};
ghost use Rattle.std.specs.declared.option.Option.TheVariants.{None};
ghost use Rattle.or_base.specs.Order.{bytes_cmp};
ghost use Rattle.or_base.specs.Journal.{holds};
ghost use Rattle.or_base.specs.declared.entry.JournalEntry.TheVariants.{Merged};
ghost use Rattle.or_timer.specs.Deadlines.{deadline_in, with_deadline, without_deadline};
ghost use Rattle.kv_table.specs.Index.{merged_at};
ghost use Rattle.kv_table.specs.Slots.{slot_in, AreSlotsOf, pair_at, lacks_hash, deadline_from, deadlines_with};

use crate::slot::Slot;
use kv_value::hash_of;
use or_base::{Held, JournalEntry, Key, NoMemory, Origin, Pair};
use or_timer::Wheel;
use std::collections::BTreeMap;

/// What the entry at a place of the journal merged, if it merged something.
pub fn merged_at(journal: &[JournalEntry], place: usize) -> Option<Held<'_>>
    ensures { option_map (λ held. (held.value.now, held.merged_at)) result ≡ merged_at journal.now place }
{
    match journal.get(place)? {
        JournalEntry::Merged { pair, at, .. } => Some(Held {
            value: &pair.value,
            merged_at: *at,
        }),
        JournalEntry::Expired { .. } => None,
        JournalEntry::Cleared { .. } => None,
    }
}

/// What the newest entry of the journal merged under the key, if it did.
#[tactic(auto, using(or_base::proofs::Offers::holds_push))]
pub(crate) fn newest<'a>(journal: &'a [JournalEntry], key: &Key) -> Option<Held<'a>>
    ensures { IfSome result (λ held. holds journal.now key.now ≡ Some (held.value.now, held.merged_at)) }
{
    match journal.split_last()? {
        (JournalEntry::Merged { pair, at, .. }, _) => {
            if pair.key.as_str() != key.as_str() {
                return None;
            }
            Some(Held {
                value: &pair.value,
                merged_at: *at,
            })
        }
        _ => None,
    }
}

/// The deadline of a value that is merged at the moment `now`. It can be past 2^64.
pub(crate) fn deadline_from(now: u64, ttl: Option<u64>) -> Option<u128>
    ensures { result ≡ deadline_from now ttl }
{
    let lifetime = ttl?;
    Some(u128::from(now) + u128::from(lifetime))
}

/// Gives the key this slot and no deadline.
fn keep_for_ever(
    slots: &mut BTreeMap<Key, Slot>,
    wheel: &mut Wheel,
    key: &Key,
    slot: Slot,
) -> Result<(), NoMemory>
    ensures slots { OnOk result (slots.new.entries ≡ insert_entry bytes_cmp slots.old.entries key.now slot) }
    ensures wheel { OnOk result (wheel.new ≡ without_deadline wheel.old key.now) }
    ensures slots_err { OnErr result (slots.new.entries ≡ slots.old.entries) }
    ensures wheel_err { OnErr result (wheel.new ≡ wheel.old) }
{
    let name = key.copied()?;
    slots.insert(name, slot)?;
    let _had_one = wheel.cancel(key);
    Ok(())
}

/// Gives the key this slot and this deadline.
#[tactic(auto, using(crate::proofs::Changes::taken_back))]
fn keep_until(
    slots: &mut BTreeMap<Key, Slot>,
    wheel: &mut Wheel,
    key: &Key,
    slot: Slot,
    deadline: u128,
) -> Result<(), NoMemory>
    requires { slot_in slots.old.entries key.now ≡ None → deadline_in wheel.old key.now ≡ None }
    ensures slots { OnOk result (slots.new.entries ≡ insert_entry bytes_cmp slots.old.entries key.now slot) }
    ensures wheel { OnOk result (wheel.new ≡ with_deadline wheel.old key.now deadline) }
    ensures slots_err { OnErr result (slots.new.entries ≡ slots.old.entries) }
    ensures wheel_err { OnErr result (wheel.new ≡ wheel.old) }
{
    let name = key.copied()?;
    wheel.set(key.copied()?, deadline)?;
    match slots.insert(name, slot) {
        Ok(_) => Ok(()),
        Err(_) => {
            let _was_set = wheel.cancel(key);
            Err(NoMemory)
        }
    }
}

/// Gives the key this slot, and this deadline if there is one. Where memory runs out nothing changes.
pub(crate) fn keep(
    slots: &mut BTreeMap<Key, Slot>,
    wheel: &mut Wheel,
    key: &Key,
    slot: Slot,
    deadline: Option<u128>,
) -> Result<(), NoMemory>
    requires { slot_in slots.old.entries key.now ≡ None → deadline_in wheel.old key.now ≡ None }
    ensures slots { OnOk result (slots.new.entries ≡ insert_entry bytes_cmp slots.old.entries key.now slot) }
    ensures wheel { OnOk result (wheel.new ≡ deadlines_with wheel.old key.now deadline) }
    ensures slots_err { OnErr result (slots.new.entries ≡ slots.old.entries) }
    ensures wheel_err { OnErr result (wheel.new ≡ wheel.old) }
{
    match deadline {
        None => keep_for_ever(slots, wheel, key, slot)?,
        Some(deadline) => keep_until(slots, wheel, key, slot, deadline)?,
    }
    Ok(())
}

/// Gives the key this deadline, or none. Where memory runs out nothing changes.
fn keep_deadline(wheel: &mut Wheel, key: &Key, deadline: Option<u128>) -> Result<(), NoMemory>
    ensures ok { OnOk result (wheel.new ≡ deadlines_with wheel.old key.now deadline) }
    ensures err { OnErr result (wheel.new ≡ wheel.old) }
{
    match deadline {
        None => {
            let _had_one = wheel.cancel(key);
        }
        Some(deadline) => wheel.set(key.copied()?, deadline)?,
    }
    Ok(())
}

/// Appends a pair to the journal whose key has this slot. Where memory runs out nothing changes.
pub(crate) fn merge_over(
    slot: &mut Slot,
    entries: &mut Vec<JournalEntry>,
    wheel: &mut Wheel,
    pair: &Pair,
    now: u64,
    origin: Origin,
) -> Result<(), NoMemory>
    ensures entries { OnOk result (entries.new.items ≡ entries.old.items ++ Merged pair.now now origin ∷ []) }
    ensures wheel { OnOk result (wheel.new ≡ deadlines_with wheel.old pair.now.key (deadline_from now pair.now.value.ttl)) }
    ensures slot { OnOk result (slot.new ≡ record { place = length entries.old.items; hash = None }) }
    ensures entries_err { OnErr result (entries.new.items ≡ entries.old.items) }
    ensures wheel_err { OnErr result (wheel.new ≡ wheel.old) }
    ensures slot_err { OnErr result (slot.new ≡ slot.old) }
{
    let pair = pair.copied()?;
    entries.reserve(1)?;
    keep_deadline(wheel, &pair.key, deadline_from(now, pair.value.ttl))?;
    *slot = Slot {
        place: entries.len(),
        hash: None,
    };
    entries.push_reserved(JournalEntry::Merged {
        pair,
        at: now,
        origin,
    });
    Ok(())
}

/// Whether the key has a slot with this place, and that has no hash.
fn lacks_hash(slots: &BTreeMap<Key, Slot>, key: &Key, place: usize) -> bool
    ensures { result ≡ lacks_hash (slot_in slots.now.entries key.now) place }
{
    match slots.get(key) {
        Some(slot) => slot.place == place && slot.hash.is_none(),
        None => false,
    }
}

/// The pair that the entry at a place of the journal merged, if it merged one.
fn pair_at(journal: &[JournalEntry], place: usize) -> Option<&Pair>
    ensures { option_map (λ pair. pair.now) result ≡ pair_at journal.now place }
{
    match journal.get(place)? {
        JournalEntry::Merged { pair, .. } => Some(pair),
        JournalEntry::Expired { .. } => None,
        JournalEntry::Cleared { .. } => None,
    }
}

/// Keeps the hash of the value that was merged at a place of the journal, if the value is held and has none yet.
#[tactic(auto, using(crate::proofs::Changes::hash_kept))]
pub(crate) fn keep_hash(
    slots: &mut BTreeMap<Key, Slot>,
    journal: &[JournalEntry],
    place: usize,
) -> Result<(), NoMemory>
    requires { AreSlotsOf journal.now slots.old.entries }
    ensures { AreSlotsOf journal.now slots.new.entries }
{
    if let Some(pair) = pair_at(journal, place) {
        if lacks_hash(slots, &pair.key, place) {
            let name = pair.key.copied()?;
            let hash = Some(hash_of(&pair.value));
            slots.insert(name, Slot { place, hash })?;
        }
    }
    Ok(())
}
