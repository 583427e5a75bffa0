ghost use Rattle.std.specs.Prelude.{◌≡◌, ◌≢◌, [], is_some, IfOk, OnOk, OnErr, IsTrue, ◌↔◌};

use crate::own::OwnValue;
use or_base::{Bytes, Key, NoMemory};
use std::alloc::Global;
use std::collections::BTreeMap;
use std::collections::btree_map::Iter;
use std::marker::Model;

/// The keys that a node owns. Contracts see a list of keys with their own values, in byte order of keys.
#[derive(Drop)]
pub struct Owned {
    keys: BTreeMap<Key, OwnValue>,
    alloc: Global,
}

impl Model for Owned {
    ghost use Rattle.std.specs.Prelude.{ℕ, List};
    ghost use Rattle.kv_self.specs.declared.own.OwnValue.{OwnValue};

    ghost Value = { List (List ℕ × OwnValue) };

    ghost view = { λ owned. owned.keys.entries };
}

impl Owned {
    ghost use Rattle.std.specs.List.Sorted.{IsStrictlySortedBy};
    ghost use Rattle.std.specs.Map.{keys_of};
    ghost use Rattle.std.specs.Option.{option_copied};
    ghost use Rattle.std.specs.declared.option.Option.TheVariants.{None};
    ghost use Rattle.or_base.specs.Order.{bytes_cmp};
    ghost use Rattle.kv_self.specs.Owned.{own_under, with_owned, without_owned};

    /// No key is owned.
    pub fn new(alloc: Global) -> Owned
        ensures { result ≡ [] }
    {
        Owned {
            keys: BTreeMap::new(alloc),
            alloc,
        }
    }

    /// Owns the key, with this value and time to live in milliseconds in place of those that it had. Where memory runs
    /// out nothing changes.
    pub fn persist(&mut self, key: Key, value: Bytes, ttl: Option<u64>) -> Result<(), NoMemory>
        ensures ok { OnOk result (self.new ≡ with_owned self.old key (record { value = value; ttl = ttl })) }
        ensures err { OnErr result (self.new ≡ self.old) }
        ensures memory { OnErr result (own_under self.old key ≡ None) }
    {
        self.keys.insert(key, OwnValue { value, ttl })?;
        Ok(())
    }

    /// Owns the key no more, and tells whether it was owned. It takes no memory.
    pub fn unset(&mut self, key: &Key) -> bool
        ensures answer { result ≡ is_some (own_under self.old key.now) }
        ensures state { self.new ≡ without_owned self.old key.now }
    {
        self.keys.remove(key).is_some()
    }

    /// What is to stand under the key, if it is owned. It takes no memory.
    pub fn own_under(&self, key: &Key) -> Option<&OwnValue>
        ensures { option_copied result ≡ own_under self.now key.now }
    {
        self.keys.get(key)
    }

    /// Whether no key is owned.
    pub fn is_empty(&self) -> bool
        ensures { IsTrue result ↔ (self.now ≡ []) }
    {
        self.keys.is_empty()
    }

    /// The owned keys with their own values, in byte order. It takes no memory.
    pub fn iter(&self) -> Iter<'_, Key, OwnValue>
        ensures entries { result ≡ self.now }
        ensures ordered { IsStrictlySortedBy bytes_cmp (keys_of self.now) }
    {
        self.keys.iter()
    }

    /// The owned keys, in byte order. It takes no memory where no key is owned.
    pub fn keys(&self) -> Result<Vec<Key>, NoMemory>
        ensures keys { IfOk result (λ keys. keys.items ≡ keys_of self.now) }
        ensures ordered { IfOk result (λ keys. IsStrictlySortedBy bytes_cmp keys.items) }
        ensures memory { OnErr result (self.now ≢ []) }
    {
        let mut keys = Vec::new(self.alloc);
        for key in self.keys.keys() {
            keys.push(key.copied()?)?;
        }
        Ok(keys)
    }
}
