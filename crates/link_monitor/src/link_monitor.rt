ghost use Rattle.std.specs.Prelude.{◌≡◌, ◌++◌, ◌≤◌, IsTrue, IfOk, OnOk, map, length, List};
ghost use Rattle.std.specs.List.{flat_map, position_or_len};
ghost use Rattle.or_actor.specs.declared.output.Output.{Output};
ghost use Rattle.link_monitor.specs.declared.link.MonitoredLink.{MonitoredLink};
ghost use Rattle.link_monitor.specs.LinkMonitor.{is_before, with_monitored, links_at, adjacencies, has_none, link_turn, drained_after};

use crate::link::MonitoredLink;
use or_actor::{LinkEnd, Module, Outbox, has_small_link};
use or_base::{AdjDb, Adjacency, Item, Name, NoMemory, Seq};
use or_json::{adj_text, link_record_key};
use own_record::OwnRecord;
use std::alloc::Global;
use std::marker::Model;

/// LinkMonitor of a node.
#[derive(Drop)]
pub struct LinkMonitorModule {
    alloc: Global,
    me: Name,
    /// The node carries no transit traffic.
    is_drained: bool,
    /// In the order of their interfaces.
    links: Vec<MonitoredLink>,
    own: OwnRecord,
}

impl Model for LinkMonitorModule {
    ghost use Rattle.link_monitor.specs.LinkMonitor.{LinkMonitorState};

    ghost Value = { LinkMonitorState };

    ghost view = { λ m. record { me = m.me; is_drained = m.is_drained; links = m.links.items; own = m.own } };
}

/// The place of a link among others that are in the order of their interfaces: that of the first which it comes before,
/// or behind them all.
#[tactic(auto, using(crate::proofs::Places::placing))]
fn place_of(links: &[MonitoredLink], link: &MonitoredLink) -> usize
    ensures within { result ≤ length links.now }
    ensures place { result ≡ position_or_len (is_before link.now) links.now }
{
    links
        .iter()
        .take_while(|other| !link.is_before(other))
        .count()
}

/// Adds a link to others that are in the order of their interfaces.
#[tactic(auto, using(crate::proofs::Places::insert_at_place))]
fn add_link(links: &mut Vec<MonitoredLink>, link: MonitoredLink) -> Result<(), NoMemory>
    ensures { OnOk result (links.new.items ≡ with_monitored links.old.items link) }
{
    let place = place_of(links, &link);
    links.insert(place, link)?;
    Ok(())
}

/// The links at these ends, behind none of which a neighbour is known.
fn links_at(alloc: Global, ends: Vec<LinkEnd>) -> Result<Vec<MonitoredLink>, NoMemory>
    ensures { IfOk result (λ links. links.items ≡ links_at ends.items) }
{
    let mut links = Vec::new(alloc);
    for end in ends {
        add_link(&mut links, MonitoredLink::new(end))?;
    }
    Ok(links)
}

/// The adjacencies over the links.
fn adjacencies(alloc: Global, links: &[MonitoredLink]) -> Result<Vec<Adjacency>, NoMemory>
    ensures { IfOk result (λ found. found.items ≡ adjacencies links.now) }
{
    let mut found = Vec::new(alloc);
    for link in links {
        if let Some(adjacency) = link.adjacency()? {
            found.push(adjacency)?;
        }
    }
    Ok(found)
}

/// There is no adjacency.
#[tactic(auto, using(crate::proofs::Steps::none_by_length))]
fn has_none(listed: &[Adjacency]) -> bool
    ensures { result ≡ has_none listed.now }
{
    listed.is_empty()
}

/// The item is taken for each link, in order.
fn turn_all(links: &mut [MonitoredLink], item: &Item, out: &mut Outbox) -> Result<(), NoMemory>
    ensures links { OnOk result (links.new ≡ map (λ (t : MonitoredLink × List Output). t.0) (map (λ l. link_turn l item.now) links.old)) }
    ensures sent { OnOk result (out.new ≡ out.old ++ flat_map (λ (t : MonitoredLink × List Output). t.1) (map (λ l. link_turn l item.now) links.old)) }
{
    for link in links.iter_mut() {
        link.turn(item, out)?;
    }
    Ok(())
}

/// Whether the node is drained behind an item.
fn drained_after(is_drained: bool, item: &Item) -> bool
    ensures { result ≡ drained_after is_drained item.now }
{
    match item {
        Item::Drain { on } => *on,
        _other => is_drained,
    }
}

impl LinkMonitorModule {
    ghost use Rattle.or_actor.specs.Fits.{has_small_link, have_small_links};
    ghost use Rattle.link_monitor.specs.LinkMonitor.{new_link_monitor, taken, published, link_monitor_step};

    /// LinkMonitor of the node `me`, with the ends of its links; no neighbour is known. Its record has this lifetime in the
    /// store.
    pub fn new(
        alloc: Global,
        me: Name,
        ends: Vec<LinkEnd>,
        ttl: Option<u64>,
    ) -> Result<LinkMonitorModule, NoMemory>
        ensures { IfOk result (λ monitor. monitor ≡ new_link_monitor me ends.items ttl) }
    {
        let key = link_record_key(alloc, &me)?;
        let links = links_at(alloc, ends)?;
        Ok(LinkMonitorModule {
            alloc,
            me,
            is_drained: false,
            links,
            own: OwnRecord::unsent(key, ttl),
        })
    }

    /// Hands the node's link record to the store, where its text is another.
    fn publish(&mut self, out: &mut Outbox) -> Result<(), NoMemory>
        ensures state { OnOk result (self.new ≡ (published self.old).0) }
        ensures sent { OnOk result (out.new ≡ out.old ++ (published self.old).1) }
    {
        let listed = adjacencies(self.alloc, self.links.as_slice())?;
        let is_empty = has_none(&listed);
        let db = AdjDb {
            node: self.me.copied()?,
            overload: self.is_drained,
            adjacencies: Seq::from_vec(listed),
        };
        let text = adj_text(self.alloc, &db)?;
        self.own.hand_over(text, is_empty, out)
    }

    /// The item is taken for the node and each link.
    #[tactic(auto, using(std::proofs::lemmas::List::with_items_is))]
    fn take(&mut self, item: &Item, out: &mut Outbox) -> Result<(), NoMemory>
        ensures state { OnOk result (self.new ≡ (taken self.old item.now).0) }
        ensures sent { OnOk result (out.new ≡ out.old ++ (taken self.old item.now).1) }
    {
        self.is_drained = drained_after(self.is_drained, item);
        turn_all(&mut self.links, item, out)
    }

    /// One turn.
    #[tactic(auto, unfolding(crate::specs::LinkMonitor::link_monitor_step), using(crate::proofs::Steps::small_step))]
    fn step(&mut self, item: &Item, out: &mut Outbox) -> Result<(), NoMemory>
        requires { IsTrue (has_small_link item.now) }
        ensures state { OnOk result (self.new ≡ (link_monitor_step self.old item.now).0) }
        ensures sent { OnOk result (out.new ≡ out.old ++ (link_monitor_step self.old item.now).1) }
        ensures small { OnOk result (IsTrue (have_small_links (link_monitor_step self.old item.now).1)) }
    {
        self.take(item, out)?;
        self.publish(out)
    }
}

impl Module for LinkMonitorModule {
    ghost use Rattle.or_actor.specs.Fits.{has_small_link};
    ghost use Rattle.or_actor.specs.Steps.{finds_nothing};
    ghost use Rattle.link_monitor.specs.LinkMonitor.{LinkMonitorState, link_monitor_step};

    ghost State = { LinkMonitorState };

    ghost state = { λ m. m };

    ghost may_take = { λ s item. has_small_link item };

    ghost may_find = { λ s item at. finds_nothing at };

    ghost step = { λ s lane item at. link_monitor_step s item };

    fn fits(&self, item: &Item) -> bool {
        has_small_link(item)
    }

    fn turn(&mut self, _lane: u32, item: Item, out: &mut Outbox) -> Result<u64, NoMemory> {
        self.step(&item, out)?;
        Ok(0)
    }
}
