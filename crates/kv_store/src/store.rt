ghost use Rattle.std.specs.Prelude.{◌≡◌, ◌++◌, [], ◌∷◌, ◌<◌, ◌≤◌, ◌^◌, length, drop, is_ok, IsTrue, IfOk, OnOk};
ghost use Rattle.or_base.specs.ByLink.{with_link, without_link};
ghost use Rattle.or_actor.specs.Fits.{link_number_end};
ghost use Rattle.or_base.specs.declared.kind.Kind.TheVariants.{Full};
ghost use Rattle.kv_store.specs.Store.{response_to_reply, persisted_by, entries_told};

use crate::answers::{push_on, send_on, start_each, start_with};
use crate::floods::{Floods, TurnKeys, turn_keys};
use crate::offers::offer_all;
use crate::own::{keys_to_write, refresh_each, write_each};
use crate::response::{Remaining, Response};
use kv_flood::flood_message;
use kv_self::Owned;
use kv_sync::{Sessions, ack, reply_to};
use kv_table::KvTable;
use or_actor::{DECISION_PORT, Module, Outbox, has_small_link};
use or_base::{
    Bytes, Item, JournalEntry, Key, Kind, Msg, Name, NoMemory, Origin, Pair, Seq, SyncDone,
    is_among,
};
use std::alloc::Global;
use std::collections::BTreeMap;
use std::marker::Model;

/// One name.
fn one(alloc: Global, name: Name) -> Result<Seq<Name>, NoMemory>
    ensures { IfOk result (λ names. names ≡ name ∷ []) }
{
    let mut names = Vec::new(alloc);
    names.push(name)?;
    Ok(Seq::from_vec(names))
}

/// What a reply wants is to be pushed where it arrived for its session.
fn response_to_reply(link: u32, wanted: Seq<Key>, arrived: bool) -> Response
    ensures { result ≡ response_to_reply link wanted arrived }
{
    if arrived {
        Response::Push { link, wanted }
    } else {
        Response::Nothing
    }
}

/// The key that the item persists.
fn persisted_by(alloc: Global, item: &Item) -> Result<Vec<Key>, NoMemory>
    ensures { IfOk result (λ keys. keys.items ≡ persisted_by item.now) }
{
    let mut keys = Vec::new(alloc);
    if let Item::Persist { key, .. } = item {
        keys.push(key.copied()?)?;
    }
    Ok(keys)
}

/// Tells Decision of these entries, in order.
fn tell_entries(entries: &[JournalEntry], out: &mut Outbox) -> Result<(), NoMemory>
    ensures { OnOk result (out.new ≡ out.old ++ entries_told Full entries.now) }
{
    for entry in entries {
        out.send(
            DECISION_PORT,
            Item::Entry {
                entry: entry.copied()?,
            },
        )?;
    }
    Ok(())
}

/// A node's store.
#[derive(Drop)]
pub struct KvModule {
    kind: Kind,
    me: Name,
    table: KvTable,
    moment: u64,
    owned: Owned,
    peers: BTreeMap<u32, Name>,
    sessions: Sessions,
    stale: u64,
    done: Vec<SyncDone>,
    alloc: Global,
}

impl Model for KvModule {
    ghost use Rattle.std.specs.Prelude.{All, ◌<◌};
    ghost use Rattle.std.specs.BTreeMap.{keys};
    ghost use Rattle.or_actor.specs.Fits.{link_number_end};
    ghost use Rattle.kv_store.specs.Store.{StoreState};

    ghost Value = { StoreState };

    ghost view = { λ m. record { kind = m.kind; me = m.me; journal = m.table; moment = m.moment; owned = m.owned; peers = m.peers.entries; sessions = m.sessions; stale = m.stale; done = m.done.items } };

    ghost invariant = { λ m. All (λ link. link < link_number_end) (keys m.peers) };
}

impl KvModule {
    ghost use Rattle.or_base.specs.Journal.{offer};
    ghost use Rattle.or_base.specs.declared.entry.JournalEntry.TheVariants.{Cleared};
    ghost use Rattle.or_base.specs.declared.origin.Origin.TheVariants.{Local};
    ghost use Rattle.or_actor.specs.Fits.{has_small_link, have_small_links};
    ghost use Rattle.kv_sync.specs.declared.session.SyncPhase.TheVariants.{Dumped, Pushed};
    ghost use Rattle.kv_sync.specs.Sessions.{without_session, without_sessions, current};
    ghost use Rattle.kv_self.specs.Owned.{with_owned, without_owned};
    ghost use Rattle.kv_store.specs.Store.{new_store, store_after_tick, store_after_offers, store_after_flood, with_stale_counted, store_after_reply, store_after_ack, message_change, item_change, respond, may_respond, with_own_written, floods, store_step};
    ghost use Rattle.kv_store.specs.Response.{is_on_small_link};

    /// The store of a node as it starts, in a laboratory of this kind.
    pub fn new(alloc: Global, kind: Kind, me: Name) -> Result<KvModule, NoMemory>
        ensures { IfOk result (λ m. m ≡ new_store kind me) }
    {
        Ok(KvModule {
            kind,
            me,
            table: KvTable::new(alloc)?,
            moment: 0,
            owned: Owned::new(alloc),
            peers: BTreeMap::new(alloc),
            sessions: Sessions::new(alloc)?,
            stale: 0,
            done: Vec::new(alloc),
            alloc,
        })
    }

    /// The table, which tells the journal. It takes no memory.
    pub fn table(&self) -> &KvTable
        ensures { result.now ≡ self.now.journal }
    {
        &self.table
    }

    /// The journal, as a vector. It takes no memory.
    pub fn into_journal(self) -> Vec<JournalEntry>
        ensures { result.items ≡ self.journal }
    {
        self.table.into_journal()
    }

    /// How many stale messages have arrived at the store. It takes no memory.
    pub fn stale(&self) -> u64
        ensures { result ≡ self.now.stale }
    {
        self.stale
    }

    /// The full syncs that it started and that were finished, in the order of their ends. It takes no memory.
    pub fn done(&self) -> &[SyncDone]
        ensures { result.now ≡ self.now.done }
    {
        self.done.as_slice()
    }

    /// The moment is this: lifetimes under owned keys that are due begin anew, and then what has reached its deadline is lost.
    fn take_tick(&mut self, at: u64) -> Result<(), NoMemory>
        ensures { OnOk result (self.new ≡ store_after_tick self.old at) }
    {
        let keys = self.owned.keys()?;
        refresh_each(&self.owned, at, &mut self.table, keys)?;
        self.table.expire(at)?;
        self.moment = at;
        Ok(())
    }

    /// Offers a pair that is set at this node.
    fn take_set(&mut self, pair: Pair) -> Result<(), NoMemory>
        ensures { OnOk result (self.new ≡ record self.old { journal = offer self.old.journal pair self.old.moment Local }) }
    {
        self.table.offer(&pair, self.moment, Origin::Local)?;
        Ok(())
    }

    /// Owns a key with this value and lifetime.
    fn persist(&mut self, key: Key, value: Bytes, ttl: Option<u64>) -> Result<(), NoMemory>
        ensures { OnOk result (self.new ≡ record self.old { owned = with_owned self.old.owned key (record { value = value; ttl = ttl }) }) }
    {
        self.owned.persist(key, value, ttl)?;
        Ok(())
    }

    /// Owns a key no more.
    fn unset(&mut self, key: &Key)
        ensures { self.new ≡ record self.old { owned = without_owned self.old.owned key.now } }
    {
        let _was_owned = self.owned.unset(key);
    }

    /// The node at the other end of a link can be reached.
    #[tactic(auto, using(crate::proofs::Peers::small_with))]
    fn take_peer(&mut self, link: u32, peer: Name) -> Result<(), NoMemory>
        requires { link < link_number_end }
        ensures { OnOk result (self.new ≡ record self.old { peers = with_link self.old.peers link peer }) }
    {
        self.peers.insert(link, peer)?;
        Ok(())
    }

    /// It can be reached no longer, and a full sync with it is over.
    #[tactic(auto, using(crate::proofs::Peers::small_without))]
    fn drop_peer(&mut self, link: u32)
        ensures { self.new ≡ record self.old { peers = without_link self.old.peers link; sessions = without_session self.old.sessions link } }
    {
        let _peer = self.peers.remove(&link);
        self.sessions.drop_link(link);
    }

    /// What was held is lost, and the full syncs that run are over.
    fn restart(&mut self) -> Result<(), NoMemory>
        ensures { OnOk result (self.new ≡ record self.old { journal = self.old.journal ++ Cleared self.old.moment ∷ []; sessions = without_sessions self.old.sessions }) }
    {
        self.table.clear(self.moment)?;
        self.sessions.drop_all();
        Ok(())
    }

    /// Offers pairs that came from a peer, in order.
    fn offer(&mut self, pairs: &[Pair], origin: Origin) -> Result<(), NoMemory>
        ensures { OnOk result (self.new ≡ store_after_offers self.old pairs.now origin) }
    {
        offer_all(&mut self.table, pairs, self.moment, origin)
    }

    /// Takes a flood.
    fn take_flood(&mut self, passed: &[Name], pairs: &[Pair]) -> Result<(), NoMemory>
        ensures { OnOk result (self.new ≡ store_after_flood self.old passed.now pairs.now) }
    {
        if is_among(&self.me, passed) {
            return Ok(());
        }
        self.offer(pairs, Origin::Flood)
    }

    /// Counts a stale message; the count saturates.
    fn count_stale(&mut self)
        ensures { self.new ≡ with_stale_counted self.old }
    {
        self.stale = self.stale.saturating_add(1);
    }

    /// Takes the pairs of a reply, if it isn't stale. The answer tells that.
    fn take_reply(
        &mut self,
        link: u32,
        session: u64,
        b0: u64,
        pairs: &[Pair],
        withheld: u64,
    ) -> Result<bool, NoMemory>
        ensures state { OnOk result (self.new ≡ store_after_reply self.old link b0 pairs.now withheld (current self.old.sessions link session Dumped)) }
        ensures arrived { IfOk result (λ arrived. arrived ≡ is_ok (current self.old.sessions link session Dumped)) }
    {
        match self.sessions.take_reply(link, session, b0, withheld) {
            Ok(()) => {
                self.offer(pairs, Origin::SyncReply)?;
                Ok(true)
            }
            Err(_stale) => {
                self.count_stale();
                Ok(false)
            }
        }
    }

    /// Takes an acknowledgement: the sync is finished, unless it is stale.
    fn take_ack(&mut self, link: u32, session: u64) -> Result<(), NoMemory>
        ensures { OnOk result (self.new ≡ store_after_ack self.old link (current self.old.sessions link session Pushed)) }
    {
        self.done.reserve(1)?;
        match self.sessions.take_ack(link, session) {
            Ok(done) => self.done.push_reserved(done),
            Err(_stale) => self.count_stale(),
        }
        Ok(())
    }

    /// Takes a message of the node `from`.
    fn take_message(&mut self, link: u32, from: Name, msg: Msg) -> Result<Remaining, NoMemory>
        ensures state { OnOk result (self.new ≡ (message_change self.old link from msg).store) }
        ensures response { IfOk result (λ left. left.response ≡ (message_change self.old link from msg).response) }
        ensures passed { IfOk result (λ left. left.passed ≡ (message_change self.old link from msg).passed) }
    {
        let none = Seq::from_vec(Vec::new(self.alloc));
        match msg {
            Msg::Flood { passed, pairs } => {
                self.take_flood(passed.as_slice(), pairs.as_slice())?;
                Ok(Remaining::new(Response::Nothing, passed))
            }
            Msg::Dump { session, digest } => {
                let reply = Response::Reply {
                    link,
                    session,
                    digest,
                };
                Ok(Remaining::new(reply, none))
            }
            Msg::Reply {
                session,
                b0,
                pairs,
                wanted,
                withheld,
            } => {
                let pairs = pairs.as_slice();
                let arrived = self.take_reply(link, session, b0, pairs, withheld)?;
                let push = response_to_reply(link, wanted, arrived);
                Ok(Remaining::new(push, one(self.alloc, from)?))
            }
            Msg::Push { session, pairs } => {
                self.offer(pairs.as_slice(), Origin::SyncPush)?;
                let ack = Response::Ack { link, session };
                Ok(Remaining::new(ack, one(self.alloc, from)?))
            }
            Msg::Ack { session } => {
                self.take_ack(link, session)?;
                Ok(Remaining::new(Response::Nothing, none))
            }
            Msg::Hello { .. } | Msg::Handshake { .. } | Msg::Heartbeat => {
                Ok(Remaining::new(Response::Nothing, none))
            }
        }
    }

    /// Takes an item, and gives what is left of the turn.
    #[tactic(auto, unfolding(crate::specs::Store::item_change))]
    fn take(&mut self, item: Item) -> Result<Remaining, NoMemory>
        requires { IsTrue (has_small_link item) }
        ensures state { OnOk result (self.new ≡ (item_change self.old item).store) }
        ensures response { IfOk result (λ left. left.response ≡ (item_change self.old item).response) }
        ensures passed { IfOk result (λ left. left.passed ≡ (item_change self.old item).passed) }
    {
        let mut response = Response::Nothing;
        match item {
            Item::Tick { at } => self.take_tick(at)?,
            Item::Set { pair } => self.take_set(pair)?,
            Item::PeerUp { link, peer } => {
                self.take_peer(link, peer)?;
                response = Response::Start { link };
            }
            Item::PeerDown { link } => self.drop_peer(link),
            Item::Sync { link } => response = Response::Start { link },
            Item::Restart => {
                self.restart()?;
                response = Response::StartAll;
            }
            Item::Persist { key, value, ttl } => self.persist(key, value, ttl)?,
            Item::Unset { key } => self.unset(&key),
            Item::Net { link, from, msg } => return Ok(self.take_message(link, from, msg)?),
            _other => {}
        }
        Ok(Remaining {
            response,
            passed: Seq::from_vec(Vec::new(self.alloc)),
        })
    }

    /// Responds to the item.
    #[tactic(auto, unfolding(crate::specs::Store::respond))]
    fn respond(&mut self, response: Response, out: &mut Outbox) -> Result<(), NoMemory>
        requires small { IsTrue (is_on_small_link response) }
        requires arrived { IsTrue (may_respond self.old response) }
        ensures state { OnOk result (self.new ≡ record self.old { sessions = (respond self.old response).0 }) }
        ensures sent { OnOk result (out.new ≡ out.old ++ (respond self.old response).1) }
    {
        match response {
            Response::Nothing => {}
            Response::Start { link } => {
                self.table.keep_hashes()?;
                if let Some(peer) = self.peers.get(&link) {
                    start_with(&self.me, &self.table, &mut self.sessions, link, peer, out)?;
                }
            }
            Response::StartAll => {
                self.table.keep_hashes()?;
                start_each(&self.me, &self.table, &mut self.sessions, &self.peers, out)?;
            }
            Response::Reply {
                link,
                session,
                digest,
            } => {
                self.table.keep_hashes()?;
                let rows = digest.as_slice();
                let msg = reply_to(self.alloc, &self.table, self.moment, session, rows)?;
                send_on(&self.me, link, msg, out)?;
            }
            Response::Push { link, wanted } => {
                let keys = wanted.as_slice();
                let now = self.moment;
                push_on(
                    &self.me,
                    &self.table,
                    now,
                    &mut self.sessions,
                    link,
                    keys,
                    out,
                )?;
            }
            Response::Ack { link, session } => send_on(&self.me, link, ack(session), out)?,
        }
        Ok(())
    }

    /// Writes under the node's own keys, in a turn that persisted these keys and began with so many entries.
    #[tactic(auto, using(crate::proofs::Written::nothing_written))]
    fn write_own(&mut self, entries: usize, persisted: Vec<Key>) -> Result<(), NoMemory>
        requires { entries ≤ length self.old.journal }
        ensures { OnOk result (self.new ≡ with_own_written self.old persisted.items (drop entries self.old.journal)) }
    {
        if self.owned.is_empty() {
            return Ok(());
        }
        let new = &self.table.journal()[entries..];
        let keys = keys_to_write(&self.owned, persisted, new)?;
        let now = self.moment;
        write_each(&self.me, &self.owned, now, &mut self.table, keys)?;
        Ok(())
    }

    /// Floods the keys of the entries since the journal had so many.
    #[tactic(auto, using(crate::proofs::Peers::floods_made))]
    fn flood_entries(
        &self,
        entries: usize,
        passed: &[Name],
        out: &mut Outbox,
    ) -> Result<(), NoMemory>
        requires { entries ≤ length self.now.journal }
        ensures { OnOk result (out.new ≡ out.old ++ floods self.now (drop entries self.now.journal) passed.now) }
    {
        let (alloc, table, now, me) = (self.alloc, &self.table, self.moment, &self.me);
        let new = &table.journal()[entries..];
        let TurnKeys { own, relayed } = turn_keys(alloc, new)?;
        let floods = Floods {
            me,
            passed,
            relayed: flood_message(alloc, table, now, relayed.as_slice(), passed, me)?,
            own: flood_message(alloc, table, now, own.as_slice(), &[], me)?,
        };
        floods.send(&self.peers, out)?;
        Ok(())
    }

    /// Floods what was merged since the journal had so many entries, if it has more.
    #[tactic(auto, using(crate::proofs::Peers::nothing_flooded))]
    fn flood(&self, entries: usize, passed: &[Name], out: &mut Outbox) -> Result<(), NoMemory>
        requires { entries ≤ length self.now.journal }
        ensures { OnOk result (out.new ≡ out.old ++ floods self.now (drop entries self.now.journal) passed.now) }
    {
        if self.table.journal().len() == entries {
            return Ok(());
        }
        self.flood_entries(entries, passed, out)
    }

    /// Tells Decision of the entries since the journal had so many, in a full node.
    fn tell_decision(&self, entries: usize, out: &mut Outbox) -> Result<(), NoMemory>
        requires { entries ≤ length self.now.journal }
        ensures { OnOk result (out.new ≡ out.old ++ entries_told self.now.kind (drop entries self.now.journal)) }
    {
        match self.kind {
            Kind::Stores => Ok(()),
            Kind::Full => tell_entries(&self.table.journal()[entries..], out),
        }
    }

    /// One turn.
    #[tactic(auto, unfolding(crate::specs::Store::store_step), using(crate::proofs::Growth::growing, crate::proofs::Responding::responding, crate::proofs::Turn::turn))]
    fn step(&mut self, item: Item, out: &mut Outbox) -> Result<(), NoMemory>
        requires { IsTrue (has_small_link item) }
        ensures state { OnOk result (self.new ≡ (store_step self.old item).0) }
        ensures sent { OnOk result (out.new ≡ out.old ++ (store_step self.old item).1) }
        ensures small { OnOk result (IsTrue (have_small_links (store_step self.old item).1)) }
    {
        let entries = self.table.journal().len();
        let persisted = persisted_by(self.alloc, &item)?;
        let Remaining { response, passed } = self.take(item)?;
        self.write_own(entries, persisted)?;
        self.respond(response, out)?;
        self.flood(entries, passed.as_slice(), out)?;
        self.tell_decision(entries, out)?;
        Ok(())
    }
}

impl Module for KvModule {
    ghost use Rattle.or_actor.specs.Fits.{has_small_link};
    ghost use Rattle.or_actor.specs.Steps.{finds_nothing};
    ghost use Rattle.kv_store.specs.Store.{StoreState, store_step};

    ghost State = { StoreState };

    ghost state = { λ m. m };

    ghost may_take = { λ s item. has_small_link item };

    ghost may_find = { λ s item at. finds_nothing at };

    ghost step = { λ s lane item at. store_step s item };

    fn fits(&self, item: &Item) -> bool {
        has_small_link(item)
    }

    fn turn(&mut self, _lane: u32, item: Item, out: &mut Outbox) -> Result<u64, NoMemory> {
        self.step(item, out)?;
        Ok(0)
    }
}
