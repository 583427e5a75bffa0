ghost use Rattle.std.specs.Prelude.{◌≡◌, ◌++◌, IfOk, IsTrue, OnOk};
ghost use Rattle.prefix_manager.specs.PrefixManager.{prefix_record, has_none};

use crate::advertising::AdvertisedPrefixes;
use or_actor::{Module, Outbox, has_small_link};
use or_base::{Item, Name, NoMemory, Prefix, PrefixDb, PrefixEntry, Seq};
use or_json::{prefix_record_key, prefixes_text};
use own_record::OwnRecord;
use std::alloc::Global;
use std::collections::BTreeMap;
use std::marker::Model;

/// PrefixManager of a node.
#[derive(Drop)]
pub struct PrefixManagerModule {
    alloc: Global,
    me: Name,
    advertising: AdvertisedPrefixes,
    own: OwnRecord,
}

impl Model for PrefixManagerModule {
    ghost use Rattle.prefix_manager.specs.PrefixManager.{PrefixManagerState};

    ghost Value = { PrefixManagerState };

    ghost view = { λ m. record { me = m.me; advertising = m.advertising; own = m.own } };
}

/// The node's prefix record.
fn prefix_record(
    alloc: Global,
    me: &Name,
    entries: &BTreeMap<Prefix, PrefixEntry>,
) -> Result<PrefixDb, NoMemory>
    ensures { IfOk result (λ db. db ≡ prefix_record me.now entries.now.entries) }
{
    let listed = entries.values().copied().collect(alloc)?;
    let node = me.copied()?;
    Ok(PrefixDb {
        node,
        entries: Seq::from_vec(listed),
    })
}

/// It advertises nothing.
#[tactic(auto, using(crate::proofs::Steps::none_by_length))]
fn has_none(entries: &BTreeMap<Prefix, PrefixEntry>) -> bool
    ensures { result ≡ has_none entries.now.entries }
{
    entries.len() == 0
}

impl PrefixManagerModule {
    ghost use Rattle.or_actor.specs.Fits.{have_small_links};
    ghost use Rattle.prefix_manager.specs.PrefixManager.{new_prefix_manager, prefix_manager_step};

    /// PrefixManager of the node `me`, which advertises nothing. Its record has this lifetime in the store.
    pub fn new(alloc: Global, me: Name, ttl: Option<u64>) -> Result<PrefixManagerModule, NoMemory>
        ensures { IfOk result (λ manager. manager ≡ new_prefix_manager me ttl) }
    {
        let key = prefix_record_key(alloc, &me)?;
        Ok(PrefixManagerModule {
            alloc,
            me,
            advertising: AdvertisedPrefixes::new(alloc),
            own: OwnRecord::unsent(key, ttl),
        })
    }

    /// One turn.
    #[tactic(auto, unfolding(crate::specs::PrefixManager::prefix_manager_step), using(crate::proofs::Steps::small_step))]
    fn step(&mut self, item: &Item, out: &mut Outbox) -> Result<(), NoMemory>
        ensures state { OnOk result (self.new ≡ (prefix_manager_step self.old item.now).0) }
        ensures sent { OnOk result (out.new ≡ out.old ++ (prefix_manager_step self.old item.now).1) }
        ensures small { OnOk result (IsTrue (have_small_links (prefix_manager_step self.old item.now).1)) }
    {
        self.advertising.take(item)?;
        let entries = self.advertising.advertised()?;
        let db = prefix_record(self.alloc, &self.me, &entries)?;
        let text = prefixes_text(self.alloc, &db)?;
        self.own.hand_over(text, has_none(&entries), out)
    }
}

impl Module for PrefixManagerModule {
    ghost use Rattle.or_actor.specs.Fits.{has_small_link};
    ghost use Rattle.or_actor.specs.Steps.{finds_nothing};
    ghost use Rattle.prefix_manager.specs.PrefixManager.{PrefixManagerState, prefix_manager_step};

    ghost State = { PrefixManagerState };

    ghost state = { λ m. m };

    ghost may_take = { λ s item. has_small_link item };

    ghost may_find = { λ s item at. finds_nothing at };

    ghost step = { λ s lane item at. prefix_manager_step s item };

    fn fits(&self, item: &Item) -> bool {
        has_small_link(item)
    }

    fn turn(&mut self, _lane: u32, item: Item, out: &mut Outbox) -> Result<u64, NoMemory> {
        self.step(&item, out)?;
        Ok(0)
    }
}
