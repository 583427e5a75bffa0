ghost use Rattle.std.specs.Prelude.{◌≡◌, ◌++◌, map, not, IsTrue, OnOk, nat_le};
ghost use Rattle.std.specs.List.{filter};
ghost use Rattle.std.specs.BTreeMap.{is_at};
ghost use Rattle.std.specs.BTreeSet.{insert_key};
ghost use Rattle.std.specs.Set.{remove_key};
ghost use Rattle.or_base.specs.Prefixes.{prefix_cmp, is_same_prefix};
ghost use Rattle.prefix_manager.specs.Aggregates.{address_bits, without_last, has_same_start, lies_in, aggregate_entry, IsCounted, AreCounted, told, counted_in, counted_out, without_aggregate, with_aggregate};

use or_base::{NoMemory, Prefix, PrefixEntry};
use std::collections::BTreeSet;

/// An aggregate, and how many routes lie in its prefix.
#[derive(Drop)]
pub struct CountedAggregate {
    pub prefix: Prefix,
    /// It is advertised while at least so many do.
    pub least: u32,
    pub count: u64,
}

/// How many bits an address has.
fn address_bits(v6: bool) -> u8
    ensures { result ≡ address_bits v6 }
{
    if v6 { 128 } else { 32 }
}

/// The address without so many last bits.
#[tactic(auto, using(crate::proofs::Shifted::shifting))]
fn without_last(bits: u128, count: u8) -> u128
    ensures { result ≡ without_last bits count }
{
    if count < 128 { bits >> count } else { 0 }
}

/// Both addresses begin with the bits of the outer prefix.
fn has_same_start(outer: &Prefix, inner: &Prefix) -> bool
    ensures { result ≡ has_same_start outer.now inner.now }
{
    let count = address_bits(outer.v6).saturating_sub(outer.len);
    without_last(outer.bits, count) == without_last(inner.bits, count)
}

/// The inner prefix is of the same family, is longer, and is a part of the outer one.
#[tactic(auto, unfolding(crate::specs::Aggregates::lies_in))]
fn lies_in(outer: &Prefix, inner: &Prefix) -> bool
    ensures { result ≡ lies_in outer.now inner.now }
{
    outer.v6 == inner.v6 && outer.len < inner.len && has_same_start(outer, inner)
}

/// What an aggregate in force advertises.
pub fn aggregate_entry(prefix: Prefix) -> PrefixEntry
    ensures { result ≡ aggregate_entry prefix }
{
    PrefixEntry {
        prefix,
        path: 1000,
        source: 100,
        distance: 0,
    }
}

impl CountedAggregate {
    /// Enough routes lie in it.
    pub fn is_in_force(&self) -> bool
        ensures { result ≡ nat_le self.now.least self.now.count }
    {
        u64::from(self.least) <= self.count
    }

    /// There is a route to this prefix more.
    fn count_in(&mut self, prefix: &Prefix)
        ensures { self.new ≡ counted_in prefix.now self.old }
    {
        if lies_in(&self.prefix, prefix) {
            self.count = self.count.saturating_add(1);
        }
    }

    /// There is one less.
    fn count_out(&mut self, prefix: &Prefix)
        ensures { self.new ≡ counted_out prefix.now self.old }
    {
        if lies_in(&self.prefix, prefix) {
            self.count = self.count.saturating_sub(1);
        }
    }
}

/// An aggregate, with how many of these routes lie in it.
#[tactic(auto, using(crate::proofs::Counts::counting_all))]
fn counted(routed: &BTreeSet<Prefix>, prefix: Prefix, least: u32) -> CountedAggregate
    ensures counted { IsCounted routed.now.keys result }
    ensures told { told result ≡ (prefix, least) }
{
    let _routes = routed.len();
    let mut counted = CountedAggregate {
        prefix,
        least,
        count: 0,
    };
    for route in routed.iter() {
        counted.count_in(route);
    }
    counted
}

/// Counts a route to this prefix that came.
fn count_in(aggregates: &mut [CountedAggregate], prefix: &Prefix)
    ensures { aggregates.new ≡ map (counted_in prefix.now) aggregates.old }
{
    for aggregate in aggregates.iter_mut() {
        aggregate.count_in(prefix);
    }
}

/// Counts a route to this prefix that went.
fn count_out(aggregates: &mut [CountedAggregate], prefix: &Prefix)
    ensures { aggregates.new ≡ map (counted_out prefix.now) aggregates.old }
{
    for aggregate in aggregates.iter_mut() {
        aggregate.count_out(prefix);
    }
}

/// There is a route to this prefix.
#[tactic(auto, using(crate::proofs::Counts::counting_in))]
pub fn add_route(
    routed: &mut BTreeSet<Prefix>,
    aggregates: &mut [CountedAggregate],
    prefix: &Prefix,
) -> Result<(), NoMemory>
    requires { AreCounted routed.old.keys aggregates.old }
    ensures routed { OnOk result (routed.new.keys ≡ insert_key prefix_cmp routed.old.keys prefix.now) }
    ensures counted { AreCounted routed.new.keys aggregates.new }
    ensures told { map told aggregates.new ≡ map told aggregates.old }
{
    let is_new = routed.insert(*prefix)?;
    let _routes = routed.len();
    if is_new {
        count_in(aggregates, prefix);
    }
    Ok(())
}

/// There is none.
#[tactic(auto, using(crate::proofs::Counts::counting_out))]
pub fn remove_route(
    routed: &mut BTreeSet<Prefix>,
    aggregates: &mut [CountedAggregate],
    prefix: &Prefix,
)
    requires { AreCounted routed.old.keys aggregates.old }
    ensures routed { routed.new.keys ≡ remove_key (is_at (prefix_cmp prefix.now)) routed.old.keys }
    ensures counted { AreCounted routed.new.keys aggregates.new }
    ensures told { map told aggregates.new ≡ map told aggregates.old }
{
    if routed.remove(prefix) {
        count_out(aggregates, prefix);
    }
}

/// There is no aggregate of this prefix.
pub fn remove_aggregate(aggregates: &mut Vec<CountedAggregate>, prefix: &Prefix)
    ensures items { aggregates.new.items ≡ filter (λ c. not (is_same_prefix c.prefix prefix.now)) aggregates.old.items }
    ensures told { map told aggregates.new.items ≡ without_aggregate (map told aggregates.old.items) prefix.now }
{
    aggregates.retain(|aggregate| !aggregate.prefix.is_same_prefix(prefix));
}

/// The aggregate takes the place of the one of its prefix.
#[tactic(auto, using(crate::proofs::Counts::aggregating))]
pub fn add_aggregate(
    aggregates: &mut Vec<CountedAggregate>,
    routed: &BTreeSet<Prefix>,
    prefix: Prefix,
    least: u32,
) -> Result<(), NoMemory>
    requires { AreCounted routed.now.keys aggregates.old.items }
    ensures counted { AreCounted routed.now.keys aggregates.new.items }
    ensures told { OnOk result (map told aggregates.new.items ≡ with_aggregate (map told aggregates.old.items) prefix least) }
{
    let aggregate = counted(routed, prefix, least);
    remove_aggregate(aggregates, &prefix);
    aggregates.push(aggregate)?;
    Ok(())
}
