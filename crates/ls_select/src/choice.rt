ghost use Rattle.std.specs.Prelude.{◌≡◌, ◌++◌, [], fold, map, max, min, drop, not, IfOk, OnOk};
ghost use Rattle.std.specs.List.{filter, list_any};
ghost use Rattle.ls_select.specs.Selection.{is_own, is_within_reach, takes_transit, has_none, without_overloaded, greatest_of, with_greatest, least_among, with_number, with_least, best_offers, distance_to, names_of, nearest, select};

use crate::offer::{Offer, Selected};
use or_base::{Name, NoMemory, Seq};
use std::alloc::Global;

/// The offer is of `me`.
fn is_own(me: &Name, offer: &Offer) -> bool
    ensures { result ≡ is_own me.now offer.now }
{
    offer.node.as_str() == me.as_str()
}

/// The node that offers is `me`, or some walk leads to it.
fn is_within_reach(me: &Name, offer: &Offer) -> bool
    ensures { result ≡ is_within_reach me.now offer.now }
{
    is_own(me, offer) || offer.cost.is_some()
}

/// The node that offers takes transit traffic.
fn takes_transit(offer: &Offer) -> bool
    ensures { result ≡ takes_transit offer.now }
{
    !offer.overload
}

/// How far away the node that offers is.
fn distance_to(offer: &Offer) -> u64
    ensures { result ≡ distance_to offer.now }
{
    offer.cost.unwrap_or(0)
}

/// Leaves those within reach.
fn keep_within_reach(me: &Name, offers: &mut Vec<Offer>)
    ensures { offers.new.items ≡ filter (is_within_reach me.now) offers.old.items }
{
    offers.retain(|offer| is_within_reach(me, offer));
}

/// Leaves those whose nodes take transit traffic.
fn keep_transit(offers: &mut Vec<Offer>)
    ensures { offers.new.items ≡ filter takes_transit offers.old.items }
{
    offers.retain(|offer| takes_transit(offer));
}

/// Some of the nodes takes transit traffic.
fn some_takes_transit(offers: &[Offer]) -> bool
    ensures { result ≡ not (has_none (filter takes_transit offers.now)) }
{
    let mut place = 0;
    while place < offers.len() {
        if takes_transit(&offers[place]) {
            return true;
        }
        place += 1;
    }
    false
}

/// Leaves out those of overloaded nodes, unless all are.
fn drop_overloaded(offers: &mut Vec<Offer>)
    ensures { offers.new.items ≡ without_overloaded offers.old.items }
{
    if some_takes_transit(offers) {
        keep_transit(offers);
    }
}

/// The greatest path preference.
fn greatest_path(offers: &[Offer]) -> u32
    ensures { result ≡ greatest_of (λ o. o.entry.path) offers.now }
{
    let mut greatest = 0;
    for offer in offers {
        greatest = greatest.max(offer.entry.path);
    }
    greatest
}

/// The greatest source preference.
fn greatest_source(offers: &[Offer]) -> u32
    ensures { result ≡ greatest_of (λ o. o.entry.source) offers.now }
{
    let mut greatest = 0;
    for offer in offers {
        greatest = greatest.max(offer.entry.source);
    }
    greatest
}

/// Leaves those with the highest path preference.
fn keep_greatest_path(offers: &mut Vec<Offer>)
    ensures { offers.new.items ≡ with_greatest (λ o. o.entry.path) offers.old.items }
{
    let greatest = greatest_path(offers);
    offers.retain(|offer| offer.entry.path == greatest);
}

/// Leaves those with the highest source preference.
fn keep_greatest_source(offers: &mut Vec<Offer>)
    ensures { offers.new.items ≡ with_greatest (λ o. o.entry.source) offers.old.items }
{
    let greatest = greatest_source(offers);
    offers.retain(|offer| offer.entry.source == greatest);
}

/// The least of this distance and those of offers.
fn least_distance_with(distance: u32, offers: &[Offer]) -> u32
    ensures { result ≡ fold (λ so_far o. min so_far o.entry.distance) distance offers.now }
{
    let mut least = distance;
    for offer in offers {
        least = least.min(offer.entry.distance);
    }
    least
}

/// The least distance, if there is an offer.
fn least_distance(offers: &[Offer]) -> Option<u32>
    ensures { result ≡ least_among (λ o. o.entry.distance) offers.now }
{
    let (first, others) = offers.split_first()?;
    Some(least_distance_with(first.entry.distance, others))
}

/// The least of this cost and those of ways to nodes that offer.
fn least_cost_with(cost: u64, offers: &[Offer]) -> u64
    ensures { result ≡ fold (λ so_far o. min so_far (distance_to o)) cost offers.now }
{
    let mut least = cost;
    for offer in offers {
        least = least.min(distance_to(offer));
    }
    least
}

/// The least cost of a way to a node that offers, if there is an offer.
fn least_cost(offers: &[Offer]) -> Option<u64>
    ensures { result ≡ least_among distance_to offers.now }
{
    let (first, others) = offers.split_first()?;
    Some(least_cost_with(distance_to(first), others))
}

/// Leaves those with this distance.
fn keep_distance(offers: &mut Vec<Offer>, distance: u32)
    ensures { offers.new.items ≡ with_number (λ o. o.entry.distance) offers.old.items distance }
{
    offers.retain(|offer| offer.entry.distance == distance);
}

/// Leaves those to whose nodes a way costs so much.
fn keep_cost(offers: &mut Vec<Offer>, cost: u64)
    ensures { offers.new.items ≡ with_number distance_to offers.old.items cost }
{
    offers.retain(|offer| distance_to(offer) == cost);
}

/// Leaves those with the lowest distance.
fn keep_least_distance(offers: &mut Vec<Offer>)
    ensures { offers.new.items ≡ with_least (λ o. o.entry.distance) offers.old.items }
{
    if let Some(least) = least_distance(offers) {
        keep_distance(offers, least);
    }
}

/// Leaves the best.
#[tactic(auto, unfolding(crate::specs::Selection::best_offers))]
fn keep_best(me: &Name, offers: &mut Vec<Offer>)
    ensures { offers.new.items ≡ best_offers me.now offers.old.items }
{
    keep_within_reach(me, offers);
    drop_overloaded(offers);
    keep_greatest_path(offers);
    keep_greatest_source(offers);
    keep_least_distance(offers);
}

/// One of the offers is of `me`.
fn has_own(me: &Name, offers: &[Offer]) -> bool
    ensures { result ≡ list_any (is_own me.now) offers.now }
{
    offers.iter().any(|offer| is_own(me, offer))
}

/// The nodes that offer, in order.
fn names_of(alloc: Global, offers: &[Offer]) -> Result<Vec<Name>, NoMemory>
    ensures { IfOk result (λ names. names.items ≡ names_of offers.now) }
{
    let mut names = Vec::new(alloc);
    for offer in offers {
        names.push(offer.node.copied()?)?;
    }
    Ok(names)
}

/// The nearest of these.
fn nearest(alloc: Global, offers: Vec<Offer>) -> Result<Option<Selected>, NoMemory>
    ensures { IfOk result (λ selected. selected ≡ nearest offers.items) }
{
    let Some(cost) = least_cost(&offers) else {
        return Ok(None);
    };
    let mut left = offers;
    keep_cost(&mut left, cost);
    let nodes = Seq::from_vec(names_of(alloc, &left)?);
    Ok(Some(Selected { cost, nodes }))
}

/// The nodes to which `me` routes a prefix, of those that offer it, each of which is given once. None where no offer counts,
/// or one of the best is of `me` itself.
#[tactic(auto, unfolding(crate::specs::Selection::select))]
pub fn select(alloc: Global, me: &Name, offers: Vec<Offer>) -> Result<Option<Selected>, NoMemory>
    ensures { IfOk result (λ selected. selected ≡ select me.now offers.items) }
{
    let mut left = offers;
    keep_best(me, &mut left);
    if has_own(me, &left) {
        return Ok(None);
    }
    nearest(alloc, left)
}
