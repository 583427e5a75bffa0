ghost use Rattle.std.specs.Prelude.{◌≡◌, [], option_copied, IfOk, OnOk};
ghost use Rattle.std.specs.List.Sorted.{IsStrictlySortedBy};
ghost use Rattle.std.specs.Map.{lookup};
ghost use Rattle.std.specs.BTreeMap.{is_at};
ghost use Rattle.or_base.specs.Order.{bytes_cmp};
ghost use Rattle.or_base.specs.Prefixes.{prefix_cmp};
ghost use Rattle.ls_records.specs.Records.{advertised_prefixes, advertisers};
ghost use Rattle.ls_records.specs.Change.{KeepsAdvertisers};
ghost use Rattle.ls_records.specs.Index.{advertisers_if_any, entries_in};
ghost use Rattle.ls_records.specs.Step.{changed};

use crate::index::{Index, reindex};
use or_base::{Name, NoMemory, Prefix, PrefixDb, PrefixEntry};
use std::alloc::Global;
use std::collections::BTreeMap;
use std::marker::Model;
use std::mem;

/// The prefix records that a node knows, by name, and who advertises which prefix by them. Without memory for them there are none.
#[derive(Drop)]
pub struct Advertised {
    alloc: Global,
    records: BTreeMap<Name, PrefixDb>,
    index: BTreeMap<Prefix, BTreeMap<Name, PrefixEntry>>,
}

impl Model for Advertised {
    ghost use Rattle.std.specs.Prelude.{ℕ, List};
    ghost use Rattle.or_base.specs.declared.database.PrefixDb.{PrefixDb};
    ghost use Rattle.ls_records.specs.Index.{IsIndexOf};

    ghost Value = { List (List ℕ × PrefixDb) };

    ghost view = { λ a. a.records.entries };

    ghost invariant = { λ a. IsIndexOf a.index.entries a.records.entries };
}

/// The entries of a record, if there is one.
fn entries_in(db: Option<&PrefixDb>) -> &[PrefixEntry]
    ensures { result.now ≡ entries_in (option_copied db.entry) }
{
    match db {
        Some(db) => db.entries.as_slice(),
        None => &[],
    }
}

/// The node has this prefix record, or none.
fn put(
    records: &mut BTreeMap<Name, PrefixDb>,
    node: Name,
    db: Option<PrefixDb>,
) -> Result<(), NoMemory>
    ensures { OnOk result (records.new.entries ≡ changed records.old.entries node db) }
{
    match db {
        Some(db) => {
            records.insert(node, db)?;
        }
        None => {
            records.remove(&node);
        }
    }
    Ok(())
}

impl Advertised {
    /// No prefix record. It takes no memory.
    pub fn new(alloc: Global) -> Advertised
        ensures { result ≡ [] }
    {
        Advertised {
            alloc,
            records: BTreeMap::new(alloc),
            index: BTreeMap::new(alloc),
        }
    }

    /// The node has this prefix record, or none. Gives the prefixes for which an entry is new, or gone, or another, in order.
    /// Where memory runs out there may be no prefix records.
    pub fn hold(&mut self, node: Name, db: Option<PrefixDb>) -> Result<Vec<Prefix>, NoMemory>
        ensures ok { OnOk result (self.new ≡ changed self.old node db) }
        ensures in_order { IfOk result (λ list. IsStrictlySortedBy prefix_cmp list.items) }
        ensures others { IfOk result (λ list. KeepsAdvertisers self.old self.new list.items) }
    {
        let _len = self.records.len();
        let mut records = mem::replace(&mut self.records, BTreeMap::new(self.alloc));
        let mut index = mem::replace(&mut self.index, BTreeMap::new(self.alloc));
        let old = entries_in(records.get(&node));
        let list = reindex(self.alloc, &mut index, &node, old, entries_in(db.as_ref()))?;
        put(&mut records, node, db)?;
        self.records = records;
        self.index = index;
        Ok(list)
    }

    /// No prefix record is left.
    pub fn clear(&mut self)
        ensures { self.new ≡ [] }
    {
        self.records = BTreeMap::new(self.alloc);
        self.index = BTreeMap::new(self.alloc);
    }

    /// The prefix records, by the names of their nodes.
    pub fn records(&self) -> &BTreeMap<Name, PrefixDb>
        ensures { result.now.entries ≡ self.now }
    {
        &self.records
    }

    /// The nodes that advertise exactly this prefix, in the order of their names, each with its entry. None where nobody does.
    pub fn advertisers(&self, prefix: &Prefix) -> Option<&BTreeMap<Name, PrefixEntry>>
        ensures { advertisers_if_any result ≡ advertisers self.now prefix.now }
    {
        let _len = self.records.len();
        self.index.get(prefix)
    }

    /// The prefixes that somebody advertises, in order.
    pub fn prefixes(&self) -> Result<Vec<Prefix>, NoMemory>
        ensures prefixes { IfOk result (λ prefixes. prefixes.items ≡ advertised_prefixes self.now) }
        ensures in_order { IfOk result (λ prefixes. IsStrictlySortedBy prefix_cmp prefixes.items) }
    {
        let _len = self.records.len();
        let mut prefixes = Vec::new(self.alloc);
        for prefix in self.index.keys() {
            prefixes.push(*prefix)?;
        }
        Ok(prefixes)
    }
}
