//! What a turn writes under the keys that the node owns.

ghost use Rattle.std.specs.Prelude.{◌≡◌, IfOk, OnOk};
ghost use Rattle.std.specs.BTreeSet.{insert_key};
ghost use Rattle.std.specs.List.{list_any};
ghost use Rattle.or_base.specs.Order.{bytes_cmp};
ghost use Rattle.or_base.specs.Journal.{holds};
ghost use Rattle.kv_self.specs.Owned.{own_under};
ghost use Rattle.kv_self.specs.Change.{on_change};
ghost use Rattle.kv_store.specs.Own.{offer_own, refresh_held, refresh_each, offered_value, write_each, with_named_keys, is_cleared, keys_to_write};

use kv_self::{Owned, SelfFault};
use kv_table::KvTable;
use or_base::{JournalEntry, Key, KvValue, Name, NoMemory, Origin, Pair, insert_key};
use std::alloc::Global;

/// Offers a value, if there is one, under a key of the node's own.
fn offer_own(
    table: &mut KvTable,
    key: Key,
    now: u64,
    value: Option<KvValue>,
) -> Result<(), NoMemory>
    ensures { OnOk result (table.new ≡ offer_own table.old key now value) }
{
    if let Some(value) = value {
        table.offer(&Pair { key, value }, now, Origin::Own)?;
    }
    Ok(())
}

/// What is held under the key, with a lifetime that begins anew, where that is due.
fn refresh_held(
    owned: &Owned,
    key: &Key,
    now: u64,
    table: &KvTable,
) -> Result<Option<KvValue>, NoMemory>
    ensures { IfOk result (λ value. value ≡ refresh_held (own_under owned.now key.now) now (holds table.now key.now)) }
{
    match table.get(key) {
        Some(held) => owned.refresh(key, held, now),
        None => Ok(None),
    }
}

/// Begins the lifetimes anew that are due under these keys, in order.
pub fn refresh_each(
    owned: &Owned,
    now: u64,
    table: &mut KvTable,
    keys: Vec<Key>,
) -> Result<(), NoMemory>
    ensures { OnOk result (table.new ≡ refresh_each owned.now now table.old keys.items) }
{
    for key in keys {
        let value = refresh_held(owned, &key, now, table)?;
        offer_own(table, key, now, value)?;
    }
    Ok(())
}

/// What the node offers under a key; where it is outvoted, nothing.
fn offered_value(
    me: &Name,
    owned: &Owned,
    key: &Key,
    table: &KvTable,
) -> Result<Option<KvValue>, NoMemory>
    ensures { IfOk result (λ value. value ≡ offered_value (on_change me.now (own_under owned.now key.now) (holds table.now key.now))) }
{
    match owned.on_change(me, key, table.get(key)) {
        Ok(value) => Ok(value),
        Err(SelfFault::Outvoted { .. }) => Ok(None),
        Err(SelfFault::NoMemory) => Err(NoMemory),
    }
}

/// Writes the node's own value under each of these keys that it owns and where another's value, or none, is held.
pub fn write_each(
    me: &Name,
    owned: &Owned,
    now: u64,
    table: &mut KvTable,
    keys: Vec<Key>,
) -> Result<(), NoMemory>
    ensures { OnOk result (table.new ≡ write_each me.now owned.now now table.old keys.items) }
{
    for key in keys {
        let value = offered_value(me, owned, &key, table)?;
        offer_own(table, key, now, value)?;
    }
    Ok(())
}

/// Adds the keys that the entries name to keys in byte order.
fn with_named_keys(keys: Vec<Key>, entries: &[JournalEntry]) -> Result<Vec<Key>, NoMemory>
    ensures { IfOk result (λ named. named.items ≡ with_named_keys keys.items entries.now) }
{
    let mut named = keys;
    for entry in entries {
        match entry {
            JournalEntry::Merged { pair, .. } => insert_key(&mut named, &pair.key)?,
            JournalEntry::Expired { key, .. } => insert_key(&mut named, key)?,
            JournalEntry::Cleared { .. } => {}
        }
    }
    Ok(named)
}

/// The store restarted.
fn is_cleared(entry: &JournalEntry) -> bool
    ensures { result ≡ is_cleared entry.now }
{
    matches!(entry, JournalEntry::Cleared { .. })
}

/// The store restarted in one of these entries.
fn any_cleared(entries: &[JournalEntry]) -> bool
    ensures { result ≡ list_any is_cleared entries.now }
{
    entries.iter().any(is_cleared)
}

/// The keys to look at after an item, in byte order: those that were persisted and those that an entry of the turn names;
/// after a clear all that the node owns.
#[tactic(auto, unfolding(crate::specs::Own::keys_to_write))]
pub fn keys_to_write(
    owned: &Owned,
    persisted: Vec<Key>,
    entries: &[JournalEntry],
) -> Result<Vec<Key>, NoMemory>
    ensures { IfOk result (λ keys. keys.items ≡ keys_to_write owned.now persisted.items entries.now) }
{
    if any_cleared(entries) {
        owned.keys()
    } else {
        with_named_keys(persisted, entries)
    }
}
