ghost use Rattle.std.specs.Prelude.{◌≡◌, [], codes, true, false, Some, None, option_copied, IfOk, OnOk};
ghost use Rattle.ls_graph.specs.Arcs.{usable_arcs};
ghost use Rattle.ls_graph.specs.State.{AreUsable};
ghost use Rattle.ls_records.specs.Records.{advertised_prefixes, advertisers};
ghost use Rattle.ls_records.specs.Change.{known_after, is_overloaded, Covers};
ghost use Rattle.ls_records.specs.Links.{name_if};
ghost use Rattle.ls_records.specs.Step.{taken, with_held, rest_after};
ghost use Rattle.ls_records.specs.Index.{advertisers_if_any};

use crate::advertised::Advertised;
use crate::change::RecordChange;
use crate::links::Links;
use crate::reading::{link_record_under, name_of, prefix_record_under, rest_after};
use ls_graph::{Arc, LinkChange};
use or_base::{JournalEntry, Key, KvValue, Name, NoMemory, Prefix, PrefixDb, PrefixEntry};
use std::alloc::Global;
use std::collections::BTreeMap;
use std::marker::Model;

/// The name, if it is to be told.
fn name_if(told: bool, name: Name) -> Option<Name>
    ensures { result ≡ name_if told name }
{
    if told { Some(name) } else { None }
}

/// The records that a node knows.
#[derive(Drop)]
pub struct Records {
    alloc: Global,
    links: Links,
    prefixes: Advertised,
}

impl Model for Records {
    ghost use Rattle.ls_records.specs.Change.{KnownRecords};

    ghost Value = { KnownRecords };

    ghost view = { λ r. record { me = r.links.me; links = r.links.databases; arcs = r.links.in_force; prefixes = r.prefixes } };
}

impl Records {
    /// What the node `me` knows after the empty journal. It takes no memory.
    pub fn new(alloc: Global, me: Name) -> Records
        ensures { result ≡ known_after me [] }
    {
        Records {
            alloc,
            links: Links::new(alloc, me),
            prefixes: Advertised::new(alloc),
        }
    }

    /// The journal has this entry more. Gives what may be otherwise than before. Where memory runs out the records are spent:
    /// those of one kind may be gone.
    pub fn take(&mut self, entry: &JournalEntry) -> Result<RecordChange, NoMemory>
        ensures taken { OnOk result (self.new ≡ taken self.old entry.now) }
        ensures me { self.new.me ≡ self.old.me }
        ensures covers { IfOk result (λ change. Covers self.old self.new change) }
    {
        match entry {
            JournalEntry::Merged { pair, .. } => Ok(self.hold(&pair.key, Some(&pair.value))?),
            JournalEntry::Expired { key, .. } => Ok(self.hold(key, None)?),
            JournalEntry::Cleared { .. } => Ok(self.clear()),
        }
    }

    /// This is held under the key, or nothing.
    fn hold(&mut self, key: &Key, value: Option<&KvValue>) -> Result<RecordChange, NoMemory>
        ensures ok { OnOk result (self.new ≡ with_held self.old key.now (option_copied value.entry)) }
        ensures me { self.new.me ≡ self.old.me }
        ensures covers { IfOk result (λ change. Covers self.old self.new change) }
    {
        if let Some(node) = rest_after("adj:", key) {
            return Ok(self.hold_link(key, node, value)?);
        }
        if let Some(node) = rest_after("prefix:", key) {
            return Ok(self.hold_prefix(key, node, value)?);
        }
        let _arcs = self.links.arcs();
        Ok(self.change_of_prefixes(Vec::new(self.alloc)))
    }

    /// This is held under the key of a node's link record, or nothing.
    fn hold_link(
        &mut self,
        key: &Key,
        node: &str,
        value: Option<&KvValue>,
    ) -> Result<RecordChange, NoMemory>
        requires { rest_after (codes "adj:") key.now ≡ Some node.now }
        ensures ok { OnOk result (self.new ≡ with_held self.old key.now (option_copied value.entry)) }
        ensures me { self.new.me ≡ self.old.me }
        ensures covers { IfOk result (λ change. Covers self.old self.new change) }
    {
        let node = name_of(self.alloc, node)?;
        let db = link_record_under(self.alloc, key, &node, value)?;
        let (links, differs) = self.links.hold(&node, db)?;
        Ok(self.change_of_links(links, name_if(differs, node)))
    }

    /// This is held under the key of a node's prefix record, or nothing.
    fn hold_prefix(
        &mut self,
        key: &Key,
        node: &str,
        value: Option<&KvValue>,
    ) -> Result<RecordChange, NoMemory>
        requires { rest_after (codes "prefix:") key.now ≡ Some node.now }
        ensures ok { OnOk result (self.new ≡ with_held self.old key.now (option_copied value.entry)) }
        ensures me { self.new.me ≡ self.old.me }
        ensures covers { IfOk result (λ change. Covers self.old self.new change) }
    {
        let _arcs = self.links.arcs();
        let node = name_of(self.alloc, node)?;
        let db = prefix_record_under(self.alloc, key, &node, value)?;
        let prefixes = self.prefixes.hold(node, db)?;
        Ok(self.change_of_prefixes(prefixes))
    }

    /// Nothing is held.
    fn clear(&mut self) -> RecordChange
        ensures now { self.new ≡ record { me = self.old.me; links = []; arcs = usable_arcs self.old.me []; prefixes = [] } }
        ensures cleared { result.cleared ≡ true }
    {
        self.prefixes.clear();
        self.links.clear();
        RecordChange {
            cleared: true,
            links: Vec::new(self.alloc),
            transit: None,
            prefixes: Vec::new(self.alloc),
        }
    }

    /// A change of these arcs, and of whether this node takes transit traffic, if there is one.
    fn change_of_links(&self, links: Vec<LinkChange>, transit: Option<Name>) -> RecordChange
        ensures kept { result.cleared ≡ false }
        ensures links { result.links.items ≡ links.items }
        ensures transit { result.transit ≡ transit }
        ensures prefixes { result.prefixes.items ≡ [] }
    {
        RecordChange {
            cleared: false,
            links,
            transit,
            prefixes: Vec::new(self.alloc),
        }
    }

    /// A change of these prefixes, and of nothing else.
    fn change_of_prefixes(&self, prefixes: Vec<Prefix>) -> RecordChange
        ensures kept { result.cleared ≡ false }
        ensures links { result.links.items ≡ [] }
        ensures transit { result.transit ≡ None }
        ensures prefixes { result.prefixes.items ≡ prefixes.items }
    {
        RecordChange {
            cleared: false,
            links: Vec::new(self.alloc),
            transit: None,
            prefixes,
        }
    }

    /// The node that knows the records.
    pub fn me(&self) -> &Name
        ensures { result.now ≡ self.now.me }
    {
        self.links.me()
    }

    /// The arcs that the node may use by the link records.
    pub fn arcs(&self) -> &[Arc]
        ensures arcs { result.now ≡ self.now.arcs }
        ensures usable { AreUsable self.now.me self.now.links result.now }
    {
        self.links.arcs()
    }

    /// The node takes no transit traffic, by its link record.
    pub fn is_overloaded(&self, node: &Name) -> bool
        ensures { result ≡ is_overloaded self.now.links node.now }
    {
        self.links.is_overloaded(node)
    }

    /// The nodes that advertise exactly this prefix, in the order of their names, each with its entry. None where nobody does.
    pub fn advertisers(&self, prefix: &Prefix) -> Option<&BTreeMap<Name, PrefixEntry>>
        ensures { advertisers_if_any result ≡ advertisers self.now.prefixes prefix.now }
    {
        self.prefixes.advertisers(prefix)
    }

    /// The prefix records, by the names of their nodes.
    pub fn prefix_records(&self) -> &BTreeMap<Name, PrefixDb>
        ensures { result.now.entries ≡ self.now.prefixes }
    {
        self.prefixes.records()
    }

    /// The prefixes that somebody advertises, in order.
    pub fn advertised_prefixes(&self) -> Result<Vec<Prefix>, NoMemory>
        ensures { IfOk result (λ prefixes. prefixes.items ≡ advertised_prefixes self.now.prefixes) }
    {
        self.prefixes.prefixes()
    }
}
