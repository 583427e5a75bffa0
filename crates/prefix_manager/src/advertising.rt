ghost use Rattle.std.specs.Prelude.{◌≡◌, fold, map, nat_le, OnOk, IfOk};
ghost use Rattle.std.specs.BTreeMap.{insert_entry, is_at};
ghost use Rattle.std.specs.Map.{remove_entry};
ghost use Rattle.or_base.specs.Prefixes.{prefix_cmp};
ghost use Rattle.prefix_manager.specs.Aggregates.{with_counted};

use crate::aggregate::{
    CountedAggregate, add_aggregate, add_route, aggregate_entry, remove_aggregate, remove_route,
};
use or_base::{Delta, Item, NoMemory, Prefix, PrefixEntry, Route};
use std::alloc::Global;
use std::collections::{BTreeMap, BTreeSet};
use std::marker::Model;

/// What a node is to advertise: its entries, its aggregates, and the prefixes to which it has routes.
#[derive(Drop)]
pub struct AdvertisedPrefixes {
    entries: BTreeMap<Prefix, PrefixEntry>,
    aggregates: Vec<CountedAggregate>,
    routed: BTreeSet<Prefix>,
}

impl Model for AdvertisedPrefixes {
    ghost use Rattle.std.specs.Prelude.{map};
    ghost use Rattle.prefix_manager.specs.Aggregates.{AreCounted, told};
    ghost use Rattle.prefix_manager.specs.PrefixManager.{Advertising};

    ghost Value = { Advertising };

    ghost view = { λ a. record { entries = a.entries.entries; aggregates = map told a.aggregates.items; routed = a.routed.keys } };

    ghost invariant = { λ a. AreCounted a.routed.keys a.aggregates.items };
}

/// Adds the entry of this aggregate, if it is in force and there is none for its prefix.
fn add_covering(
    entries: &mut BTreeMap<Prefix, PrefixEntry>,
    aggregate: &CountedAggregate,
) -> Result<(), NoMemory>
    ensures { OnOk result (entries.new.entries ≡ with_counted entries.old.entries aggregate.now) }
{
    let prefix = aggregate.prefix;
    if aggregate.is_in_force() && !entries.contains_key(&prefix) {
        entries.insert(prefix, aggregate_entry(prefix))?;
    }
    Ok(())
}

/// The entries with those of aggregates.
fn with_aggregates(
    entries: &BTreeMap<Prefix, PrefixEntry>,
    aggregates: &[CountedAggregate],
) -> Result<BTreeMap<Prefix, PrefixEntry>, NoMemory>
    ensures { IfOk result (λ all. all.entries ≡ fold with_counted entries.now.entries aggregates.now) }
{
    let mut all = entries.clone()?;
    for aggregate in aggregates {
        add_covering(&mut all, aggregate)?;
    }
    Ok(all)
}

impl AdvertisedPrefixes {
    ghost use Rattle.prefix_manager.specs.Aggregates.{without_aggregate, with_aggregate};
    ghost use Rattle.prefix_manager.specs.PrefixManager.{no_advertising, with_route, without_route, advertising_after, advertised};

    /// Nothing. It takes no memory.
    pub fn new(alloc: Global) -> AdvertisedPrefixes
        ensures { result ≡ no_advertising }
    {
        AdvertisedPrefixes {
            entries: BTreeMap::new(alloc),
            aggregates: Vec::new(alloc),
            routed: BTreeSet::new(alloc),
        }
    }

    /// The entry takes the place of the one for its prefix.
    fn advertise(&mut self, entry: &PrefixEntry) -> Result<(), NoMemory>
        ensures { OnOk result (self.new ≡ record self.old { entries = insert_entry prefix_cmp self.old.entries entry.now.prefix entry.now }) }
    {
        self.entries.insert(entry.prefix, *entry)?;
        Ok(())
    }

    /// Neither an entry nor an aggregate stays for the prefix.
    #[tactic(auto, using(crate::proofs::Counts::counted_kept))]
    fn withdraw(&mut self, prefix: &Prefix)
        ensures { self.new ≡ record self.old { entries = remove_entry (is_at (prefix_cmp prefix.now)) self.old.entries; aggregates = without_aggregate self.old.aggregates prefix.now } }
    {
        self.entries.remove(prefix);
        remove_aggregate(&mut self.aggregates, prefix);
    }

    /// The aggregate takes the place of the one of its prefix.
    fn aggregate(&mut self, prefix: Prefix, least: u32) -> Result<(), NoMemory>
        ensures { OnOk result (self.new ≡ record self.old { aggregates = with_aggregate self.old.aggregates prefix least }) }
    {
        add_aggregate(&mut self.aggregates, &self.routed, prefix, least)
    }

    /// There is no route to this prefix.
    fn remove_route(&mut self, prefix: &Prefix)
        ensures { self.new ≡ without_route self.old prefix.now }
    {
        remove_route(&mut self.routed, &mut self.aggregates, prefix);
    }

    /// There is a route to this prefix.
    fn add_route(&mut self, prefix: &Prefix) -> Result<(), NoMemory>
        ensures { OnOk result (self.new ≡ with_route self.old prefix.now) }
    {
        add_route(&mut self.routed, &mut self.aggregates, prefix)
    }

    /// There are no routes to these prefixes.
    fn remove_routes(&mut self, prefixes: &[Prefix])
        ensures { self.new ≡ fold without_route self.old prefixes.now }
    {
        for prefix in prefixes {
            self.remove_route(prefix);
        }
    }

    /// There are these routes.
    fn add_routes(&mut self, routes: &[Route]) -> Result<(), NoMemory>
        ensures { OnOk result (self.new ≡ fold with_route self.old (map (λ r. r.prefix) routes.now)) }
    {
        for route in routes {
            self.add_route(&route.prefix)?;
        }
        Ok(())
    }

    /// What changed in the routes.
    fn change_routes(&mut self, delta: &Delta) -> Result<(), NoMemory>
        ensures { OnOk result (self.new ≡ fold with_route (fold without_route self.old delta.now.del) (map (λ r. r.prefix) delta.now.set)) }
    {
        self.remove_routes(delta.del.as_slice());
        self.add_routes(delta.set.as_slice())
    }

    /// Takes an item.
    #[tactic(auto, unfolding(crate::specs::PrefixManager::advertising_after))]
    pub fn take(&mut self, item: &Item) -> Result<(), NoMemory>
        ensures { OnOk result (self.new ≡ advertising_after self.old item.now) }
    {
        match item {
            Item::Advertise { entry } => self.advertise(entry)?,
            Item::Withdraw { prefix } => self.withdraw(prefix),
            Item::Aggregate { prefix, min } => self.aggregate(*prefix, *min)?,
            Item::Routes { delta } => self.change_routes(delta)?,
            _other => {}
        }
        Ok(())
    }

    /// What the node advertises.
    #[tactic(auto, using(crate::proofs::Counts::advertised_by_counts))]
    pub fn advertised(&self) -> Result<BTreeMap<Prefix, PrefixEntry>, NoMemory>
        ensures { IfOk result (λ all. all.entries ≡ advertised self.now) }
    {
        let all = with_aggregates(&self.entries, self.aggregates.as_slice())?;
        Ok(all)
    }
}
