//! kv_table: a table against a plain one, which keeps its journal alone and reads all of it for each answer.

ghost use Rattle.std.specs.Prelude.{◌<◌};

use crate::fixtures::name;
use kv_table::KvTable;
use kv_value::value_cmp;
use or_base::{Bytes, Held, JournalEntry, Key, KvValue, NoMemory, Origin, Pair, is_valid_pair};
use std::alloc::Global;
use std::cmp::Ordering;
use std::test::Fail;

/// A table that keeps nothing beside its journal.
#[derive(Drop)]
struct PlainTable {
    entries: Vec<JournalEntry>,
}

/// Whether the entry ends what was held under the key.
fn ends(entry: &JournalEntry, key: &Key) -> bool {
    match entry {
        JournalEntry::Merged { pair, .. } => pair.key == *key,
        JournalEntry::Expired { key: name, .. } => *name == *key,
        JournalEntry::Cleared { .. } => true,
    }
}

/// What the entry merged, with its deadline if it has one.
fn with_deadline(entry: &JournalEntry) -> Option<(&Key, u128)> {
    let JournalEntry::Merged { pair, at, .. } = entry else {
        return None;
    };
    let lifetime = pair.value.ttl?;
    Some((&pair.key, u128::from(*at) + u128::from(lifetime)))
}

impl PlainTable {
    /// What is held under the key.
    fn get(&self, key: &Key) -> Option<Held<'_>> {
        for entry in self.entries.iter().rev() {
            if ends(entry, key) {
                return match entry {
                    JournalEntry::Merged { pair, at, .. } => Some(Held {
                        value: &pair.value,
                        merged_at: *at,
                    }),
                    _ => None,
                };
            }
        }
        None
    }

    /// Merges the pair if it is valid and exceeds what is held.
    fn offer(&mut self, pair: Pair, now: u64, origin: Origin) -> Result<(), NoMemory> {
        if !is_valid_pair(&pair) {
            return Ok(());
        }
        if let Some(held) = self.get(&pair.key) {
            if value_cmp(held.value, &pair.value) != Ordering::Less {
                return Ok(());
            }
        }
        self.entries.push(JournalEntry::Merged {
            pair,
            at: now,
            origin,
        })?;
        Ok(())
    }

    /// The keys that are due, with their deadlines, in the order of the journal.
    fn due(&self, alloc: Global, now: u64) -> Result<Vec<(u128, Key)>, NoMemory> {
        let mut due = Vec::new(alloc);
        for (place, entry) in self.entries.iter().enumerate() {
            if let Some((key, deadline)) = with_deadline(entry) {
                let later = &self.entries[place + 1..];
                if deadline <= u128::from(now) && !later.iter().any(|other| ends(other, key)) {
                    due.push((deadline, key.copied()?))?;
                }
            }
        }
        Ok(due)
    }

    /// Loses what is due, by deadline and then by key.
    fn expire(&mut self, alloc: Global, now: u64) -> Result<(), NoMemory> {
        let mut due = self.due(alloc, now)?;
        due.sort()?;
        for (_deadline, key) in due {
            self.entries.push(JournalEntry::Expired { key, at: now })?;
        }
        Ok(())
    }
}

/// Numbers by a linear congruence.
#[derive(Drop)]
struct Numbers {
    state: u64,
}

impl Numbers {
    /// The next number, below 12.
    fn below_twelve(&mut self) -> u64
        ensures { result < 12 }
    {
        self.state = self
            .state
            .wrapping_mul(6_364_136_223_846_793_005)
            .wrapping_add(1_442_695_040_888_963_407);
        (self.state >> 33) % 12
    }
}

/// A pair under one of 12 keys. One of 12 has a version that no valid value has, and a third live for ever.
fn some_pair(alloc: Global, numbers: &mut Numbers) -> Result<Pair, NoMemory> {
    let letter = numbers.below_twelve();
    let version = numbers.below_twelve();
    let byte = numbers.below_twelve();
    let lifetime = numbers.below_twelve();
    Ok(Pair {
        key: Key::from_string(format!(in alloc; "k{letter}")?),
        value: KvValue {
            version,
            originator: name(alloc, if byte % 2 == 0 { "a" } else { "b" })?,
            value: Bytes::from_vec(vec![in alloc; byte as u8]?),
            ttl: if lifetime < 4 { None } else { Some(lifetime) },
            ttl_version: lifetime % 3,
        },
    })
}

fn is_same_value(v: &KvValue, w: &KvValue) -> bool {
    value_cmp(v, w) == Ordering::Equal && v.ttl == w.ttl
}

fn is_same_entry(a: &JournalEntry, b: &JournalEntry) -> bool {
    match (a, b) {
        (
            JournalEntry::Merged { pair, at, origin },
            JournalEntry::Merged {
                pair: other,
                at: moment,
                origin: way,
            },
        ) => {
            pair.key == other.key
                && is_same_value(&pair.value, &other.value)
                && at == moment
                && origin == way
        }
        (
            JournalEntry::Expired { key, at },
            JournalEntry::Expired {
                key: other,
                at: moment,
            },
        ) => key == other && at == moment,
        (JournalEntry::Cleared { at }, JournalEntry::Cleared { at: moment }) => at == moment,
        _ => false,
    }
}

/// Whether both hold the same under the key.
fn holds_same(table: &KvTable, plain: &PlainTable, key: &Key) -> bool {
    match (table.get(key), plain.get(key)) {
        (Some(a), Some(b)) => is_same_value(a.value, b.value) && a.merged_at == b.merged_at,
        (None, None) => true,
        _ => false,
    }
}

/// Does one change to both, and tells whether both then hold the same under its key.
fn change(
    alloc: Global,
    table: &mut KvTable,
    plain: &mut PlainTable,
    numbers: &mut Numbers,
    now: u64,
) -> Result<bool, NoMemory> {
    let pair = some_pair(alloc, numbers)?;
    let key = pair.key.copied()?;
    match (numbers.below_twelve(), numbers.below_twelve()) {
        (0, 0) => {
            table.clear(now)?;
            plain.entries.push(JournalEntry::Cleared { at: now })?;
        }
        (0 | 1 | 2, _) => {
            table.expire(now)?;
            plain.expire(alloc, now)?;
        }
        _ => {
            table.offer(&pair, now, Origin::Local)?;
            plain.offer(pair, now, Origin::Local)?;
        }
    }
    Ok(holds_same(table, plain, &key))
}

/// Both tables after 2,400 changes, and whether each left them holding the same under the key of the change.
fn tables_after_changes(alloc: Global) -> Result<(KvTable, PlainTable, bool), NoMemory> {
    let mut table = KvTable::new(alloc)?;
    let mut plain = PlainTable {
        entries: Vec::new(alloc),
    };
    let mut numbers = Numbers { state: 7 };
    let mut is_same = true;
    for turn in 0..2400 {
        // Several changes fall on one moment.
        if !change(alloc, &mut table, &mut plain, &mut numbers, turn / 3)? {
            is_same = false;
        }
    }
    Ok((table, plain, is_same))
}

#[test]
fn a_table_has_the_journal_of_a_plain_one(rt: HostRuntime) -> Result<(), Fail> {
    let (table, plain, is_same) = tables_after_changes(rt.alloc())?;
    assert!(rt; is_same);
    assert_eq!(rt; table.journal().len(), plain.entries.len());
    for (a, b) in table.journal().iter().zip(plain.entries.iter()) {
        assert!(rt; is_same_entry(a, b));
    }
    Ok(())
}
