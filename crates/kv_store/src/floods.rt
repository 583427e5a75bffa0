//! What a turn floods: which keys, to whom, and in which order.

ghost use Rattle.std.specs.Prelude.{◌≡◌, ◌++◌, ◌∷◌, [], ◌<◌, All, Some, IfOk, OnOk};
ghost use Rattle.std.specs.List.{flat_map};
ghost use Rattle.std.specs.Map.{keys_of};
ghost use Rattle.or_actor.specs.Fits.{link_number_end};
ghost use Rattle.kv_store.specs.Store.{begins_here, own_keys, relayed_keys, message_on, relay_to};
ghost use Rattle.kv_store.specs.Origins.{with_entry, origins_of, begun_keys, other_keys};

use crate::answers::send_on;
use kv_flood::flood_target;
use or_actor::Outbox;
use or_base::{JournalEntry, Key, Msg, Name, NoMemory, Origin};
use std::alloc::Global;
use std::collections::BTreeMap;

/// The origin is this node's own wish.
fn begins_here(origin: Origin) -> bool
    ensures { result ≡ begins_here origin }
{
    matches!(origin, Origin::Local | Origin::Own)
}

/// The origins by key, after one entry more.
fn take_entry(origins: &mut BTreeMap<Key, Origin>, entry: &JournalEntry) -> Result<(), NoMemory>
    ensures { OnOk result (origins.new.entries ≡ with_entry origins.old.entries entry.now) }
{
    match entry {
        JournalEntry::Merged { pair, origin, .. } => {
            origins.insert(pair.key.copied()?, *origin)?;
        }
        JournalEntry::Expired { key, .. } => {
            let _origin = origins.remove(key);
        }
        JournalEntry::Cleared { .. } => origins.clear(),
    }
    Ok(())
}

/// The keys that a turn's entries hold, read as a journal, each with the origin of its merge.
fn origins_of(alloc: Global, entries: &[JournalEntry]) -> Result<BTreeMap<Key, Origin>, NoMemory>
    ensures { IfOk result (λ origins. origins.entries ≡ origins_of entries.now) }
{
    let mut origins = BTreeMap::new(alloc);
    for entry in entries {
        take_entry(&mut origins, entry)?;
    }
    Ok(origins)
}

/// The keys that a turn floods.
#[derive(Drop)]
pub struct TurnKeys {
    /// Those that were merged at this node's own wish.
    pub own: Vec<Key>,
    /// The others.
    pub relayed: Vec<Key>,
}

/// The keys of these origins, by where they begin.
fn parted(alloc: Global, origins: BTreeMap<Key, Origin>) -> Result<TurnKeys, NoMemory>
    ensures own { IfOk result (λ keys. keys.own.items ≡ begun_keys origins.entries) }
    ensures relayed { IfOk result (λ keys. keys.relayed.items ≡ other_keys origins.entries) }
{
    let mut own = Vec::new(alloc);
    let mut relayed = Vec::new(alloc);
    for (key, origin) in origins {
        if begins_here(origin) {
            own.push(key)?;
        } else {
            relayed.push(key)?;
        }
    }
    Ok(TurnKeys { own, relayed })
}

/// The keys of several entries of a turn. It costs a few steps in an ordered map for each entry.
#[tactic(auto, using(crate::proofs::Origins::parting))]
fn keys_of_all(alloc: Global, entries: &[JournalEntry]) -> Result<TurnKeys, NoMemory>
    ensures own { IfOk result (λ keys. keys.own.items ≡ own_keys entries.now) }
    ensures relayed { IfOk result (λ keys. keys.relayed.items ≡ relayed_keys entries.now) }
{
    let origins = origins_of(alloc, entries)?;
    let keys = parted(alloc, origins)?;
    Ok(keys)
}

/// The key of the only entry of a turn, if it merged one.
#[tactic(auto, using(crate::proofs::Origins::of_one))]
fn keys_of_one(alloc: Global, entry: &JournalEntry) -> Result<TurnKeys, NoMemory>
    ensures own { IfOk result (λ keys. keys.own.items ≡ own_keys (entry.now ∷ [])) }
    ensures relayed { IfOk result (λ keys. keys.relayed.items ≡ relayed_keys (entry.now ∷ [])) }
{
    let mut own = Vec::new(alloc);
    let mut relayed = Vec::new(alloc);
    if let JournalEntry::Merged { pair, origin, .. } = entry {
        if begins_here(*origin) {
            own.push(pair.key.copied()?)?;
        } else {
            relayed.push(pair.key.copied()?)?;
        }
    }
    Ok(TurnKeys { own, relayed })
}

/// The keys of a turn's entries. A turn with one entry, as most are, needs no map.
pub fn turn_keys(alloc: Global, entries: &[JournalEntry]) -> Result<TurnKeys, NoMemory>
    ensures own { IfOk result (λ keys. keys.own.items ≡ own_keys entries.now) }
    ensures relayed { IfOk result (λ keys. keys.relayed.items ≡ relayed_keys entries.now) }
{
    match entries {
        [entry] => keys_of_one(alloc, entry),
        _ => keys_of_all(alloc, entries),
    }
}

/// Sends a copy of a message on a link, if there is one.
fn send_copy(me: &Name, link: u32, msg: &Option<Msg>, out: &mut Outbox) -> Result<(), NoMemory>
    requires { link < link_number_end }
    ensures sent { OnOk result (out.new ≡ out.old ++ message_on me.now link msg.now) }
{
    if let Some(msg) = msg {
        send_on(me, link, msg.copied()?, out)?;
    }
    Ok(())
}

/// What a turn floods, made once for all peers.
#[derive(Drop)]
pub struct Floods<'a> {
    pub me: &'a Name,
    /// The nodes that what is passed on has passed.
    pub passed: &'a [Name],
    /// What is passed on, if anything is.
    pub relayed: Option<Msg>,
    /// What begins here, if anything does.
    pub own: Option<Msg>,
}

impl Floods<'_> {
    ghost use Rattle.kv_store.specs.Floods.{flooded_to};

    /// Passes the message on to a peer that it hasn't passed.
    fn relay_to(&self, link: u32, peer: &Name, msg: &Msg, out: &mut Outbox) -> Result<(), NoMemory>
        requires { link < link_number_end }
        ensures { OnOk result (out.new ≡ out.old ++ relay_to self.now.me.now self.now.passed.now (link, peer.now) (Some msg.now)) }
    {
        if flood_target(self.me, peer, self.passed) {
            send_on(self.me, link, msg.copied()?, out)?;
        }
        Ok(())
    }

    /// Both floods to a peer.
    fn send_to(&self, link: u32, peer: &Name, out: &mut Outbox) -> Result<(), NoMemory>
        requires { link < link_number_end }
        ensures { OnOk result (out.new ≡ out.old ++ flooded_to self.now (link, peer.now)) }
    {
        if let Some(msg) = &self.relayed {
            self.relay_to(link, peer, msg, out)?;
        }
        send_copy(self.me, link, &self.own, out)?;
        Ok(())
    }

    /// The floods to each peer, in the order of links.
    pub fn send(&self, peers: &BTreeMap<u32, Name>, out: &mut Outbox) -> Result<(), NoMemory>
        requires { All (λ link. link < link_number_end) (keys_of peers.now.entries) }
        ensures { OnOk result (out.new ≡ out.old ++ flat_map (flooded_to self.now) peers.now.entries) }
    {
        for (link, peer) in peers {
            self.send_to(*link, peer, out)?;
        }
        Ok(())
    }
}
