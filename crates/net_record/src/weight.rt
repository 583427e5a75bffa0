//! What items and settles weigh. A weight is added to what was weighed before; the sum saturates at 2^64 - 1.

ghost use Rattle.std.specs.Prelude.{◌≡◌, ◌+◌, ◌*◌, ℕ, sum_by};
ghost use Rattle.or_base.specs.Counting.{saturate};
ghost use Rattle.net_record.specs.Weight.{name_weight, prefix_weight, hop_weight, key_weight, pair_weight, row_weight, entry_weight, route_weight, delta_weight, message_weight, parts_weight, item_weight, mark_weight, settle_weight};

use crate::record::{NodeMark, SettleDone};
use or_base::{Delta, DigestRow, Item, JournalEntry, Key, Msg, Pair, Route};

/// Every item weighs so much.
pub const BARE_ITEM_WEIGHT: u64 = 64;

/// A name in an item: of a node or an interface, but not a hop.
pub const NAME_WEIGHT: u64 = 32;

/// A key with what it stands for (a pair, a digest row, an entry, a wanted key), beside its bytes.
pub const BARE_KEY_WEIGHT: u64 = 96;

/// A prefix in an item.
pub const PREFIX_WEIGHT: u64 = 64;

/// A route, in an item or at a settle.
pub const BARE_ROUTE_WEIGHT: u64 = 64;

/// A hop of a route.
pub const HOP_WEIGHT: u64 = 32;

/// So much more.
fn add(total: u64, more: u64) -> u64
    ensures { result ≡ saturate (total + more) }
{
    total.saturating_add(more)
}

/// So many names.
fn add_names(total: u64, count: usize) -> u64
    ensures { result ≡ saturate (total + name_weight * count) }
{
    total.saturating_add(NAME_WEIGHT.saturating_mul(count as u64))
}

/// So many prefixes.
fn add_prefixes(total: u64, count: usize) -> u64
    ensures { result ≡ saturate (total + prefix_weight * count) }
{
    total.saturating_add(PREFIX_WEIGHT.saturating_mul(count as u64))
}

/// So many hops.
fn add_hops(total: u64, count: usize) -> u64
    ensures { result ≡ saturate (total + hop_weight * count) }
{
    total.saturating_add(HOP_WEIGHT.saturating_mul(count as u64))
}

/// What weighs something of its own in an item or at a settle.
trait Weighed {
    /// How much.
    ghost weight: { Self → ℕ };

    /// A weight and that of this.
    fn add_to(&self, total: u64) -> u64
        ensures { result ≡ saturate (total + weight self.now) };
}

/// A weight and that of each of these.
#[tactic(auto, using(crate::proofs::Weighing::weigh_more))]
fn add_all<T: Weighed>(total: u64, items: &[T]) -> u64
    ensures { result ≡ saturate (total + sum_by T.weight items.now) }
{
    let mut sum = total;
    for item in items {
        sum = item.add_to(sum);
    }
    sum
}

/// A key with what it stands for.
impl Weighed for Key {
    ghost weight = { key_weight };

    fn add_to(&self, total: u64) -> u64 {
        let total = add(total, BARE_KEY_WEIGHT);
        add(total, self.as_str().len() as u64)
    }
}

impl Weighed for Pair {
    ghost weight = { pair_weight };

    #[tactic(auto, unfolding(crate::specs::Weight::pair_weight))]
    fn add_to(&self, total: u64) -> u64 {
        let total = self.key.add_to(total);
        let total = add(total, self.value.value.as_slice().len() as u64);
        add(total, NAME_WEIGHT)
    }
}

impl Weighed for DigestRow {
    ghost weight = { row_weight };

    #[tactic(auto, unfolding(crate::specs::Weight::row_weight))]
    fn add_to(&self, total: u64) -> u64 {
        let total = self.key.add_to(total);
        add(total, NAME_WEIGHT)
    }
}

/// An entry of a journal.
impl Weighed for JournalEntry {
    ghost weight = { entry_weight };

    #[tactic(auto, unfolding(crate::specs::Weight::entry_weight))]
    fn add_to(&self, total: u64) -> u64 {
        match self {
            JournalEntry::Merged { pair, .. } => {
                let total = pair.key.add_to(total);
                pair.add_to(total)
            }
            JournalEntry::Expired { key, .. } => key.add_to(total),
            JournalEntry::Cleared { .. } => add(total, BARE_KEY_WEIGHT),
        }
    }
}

/// A route without its prefix, as a settle holds it.
impl Weighed for Route {
    ghost weight = { route_weight };

    #[tactic(auto, unfolding(crate::specs::Weight::route_weight))]
    fn add_to(&self, total: u64) -> u64 {
        let total = add(total, BARE_ROUTE_WEIGHT);
        add_hops(total, self.hops.as_slice().len())
    }
}

/// What changed in routes.
#[tactic(auto, unfolding(crate::specs::Weight::delta_weight))]
fn add_delta(total: u64, delta: &Delta) -> u64
    ensures { result ≡ saturate (total + delta_weight delta.now) }
{
    let total = add_prefixes(total, delta.del.as_slice().len());
    let total = add_prefixes(total, delta.set.as_slice().len());
    add_all(total, delta.set.as_slice())
}

/// A message, beside what its item weighs.
#[tactic(auto, unfolding(crate::specs::Weight::message_weight))]
fn add_message(total: u64, msg: &Msg) -> u64
    ensures { result ≡ saturate (total + message_weight msg.now) }
{
    match msg {
        Msg::Hello { heard, .. } => {
            let total = add(total, NAME_WEIGHT);
            match heard {
                Some(_) => add(total, NAME_WEIGHT),
                None => total,
            }
        }
        Msg::Handshake { .. } => add(total, NAME_WEIGHT),
        Msg::Flood { passed, pairs } => {
            let total = add_names(total, passed.as_slice().len());
            add_all(total, pairs.as_slice())
        }
        Msg::Dump { digest, .. } => add_all(total, digest.as_slice()),
        Msg::Reply { pairs, wanted, .. } => {
            let total = add_all(total, pairs.as_slice());
            add_all(total, wanted.as_slice())
        }
        Msg::Push { pairs, .. } => add_all(total, pairs.as_slice()),
        _ => total,
    }
}

/// What an item weighs beside what every item weighs.
#[tactic(auto, unfolding(crate::specs::Weight::parts_weight))]
fn add_parts(total: u64, item: &Item) -> u64
    ensures { result ≡ saturate (total + parts_weight item.now) }
{
    match item {
        Item::Script { acts, .. } => {
            let total = add(total, NAME_WEIGHT);
            add(total, acts.as_slice().len() as u64)
        }
        Item::Set { pair } => pair.add_to(total),
        Item::Advertise { .. }
        | Item::Withdraw { .. }
        | Item::Aggregate { .. }
        | Item::Ask { .. } => add(total, PREFIX_WEIGHT),
        Item::NeighbourUp { .. } => add(total, NAME_WEIGHT + NAME_WEIGHT),
        Item::PeerUp { .. } => add(total, NAME_WEIGHT),
        Item::Net { msg, .. } => {
            let total = add(total, NAME_WEIGHT);
            add_message(total, msg)
        }
        Item::Entry { entry } => entry.add_to(total),
        Item::Routes { delta } => add_delta(total, delta),
        _ => total,
    }
}

/// A weight and that of an item that was taken.
#[tactic(auto, unfolding(crate::specs::Weight::item_weight))]
pub fn add_item(total: u64, item: &Item) -> u64
    ensures { result ≡ saturate (total + item_weight item.now) }
{
    let total = add(total, BARE_ITEM_WEIGHT);
    add_parts(total, item)
}

/// The routes that a settle holds of a node.
impl Weighed for NodeMark {
    ghost weight = { mark_weight };

    fn add_to(&self, total: u64) -> u64 {
        add_all(total, self.routes.as_slice())
    }
}

/// A weight and that of a settle.
#[tactic(auto, unfolding(crate::specs::Weight::settle_weight))]
pub fn add_settle(total: u64, settle: &SettleDone) -> u64
    ensures { result ≡ saturate (total + settle_weight settle.now) }
{
    add_all(total, settle.nodes.as_slice())
}
