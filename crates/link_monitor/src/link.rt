ghost use Rattle.std.specs.Prelude.{◌≡◌, ◌++◌, ◌<◌, None, Some, IfOk, OnOk};
ghost use Rattle.or_actor.specs.Fits.{link_number_end};
ghost use Rattle.link_monitor.specs.LinkMonitor.{adjacency};

use or_actor::{LinkEnd, Outbox, STORE_PORT};
use or_base::{Adjacency, Item, Name, NoMemory};

/// The node at the other end of a link, and its interface there.
#[derive(Drop)]
pub struct AdjacentNode {
    pub name: Name,
    pub interface: Name,
}

/// A link of LinkMonitor's node.
#[derive(Drop)]
pub struct MonitoredLink {
    pub end: LinkEnd,
    /// The neighbour there, while one is known.
    pub neighbour: Option<AdjacentNode>,
    /// 1 to `MOST_METRIC`.
    pub metric: u32,
    /// The link takes no traffic.
    pub is_drained: bool,
}

/// The adjacency with a neighbour over a link.
fn adjacency(link: &MonitoredLink, node: &AdjacentNode) -> Result<Adjacency, NoMemory>
    ensures { IfOk result (λ a. a ≡ adjacency link.now node.now) }
{
    Ok(Adjacency {
        other: node.name.copied()?,
        own_if: link.end.own_if.copied()?,
        other_if: node.interface.copied()?,
        metric: link.metric,
        overload: link.is_drained,
    })
}

impl MonitoredLink {
    ghost use Rattle.std.specs.Prelude.{◌∷◌, [], option_map};
    ghost use Rattle.std.specs.Ordering.{is_lt};
    ghost use Rattle.or_base.specs.declared.item.Item.TheVariants.{PeerUp, PeerDown};
    ghost use Rattle.or_actor.specs.Ports.{store_port};
    ghost use Rattle.or_actor.specs.declared.output.Output.TheVariants.{To};
    ghost use Rattle.link_monitor.specs.LinkMonitor.{monitored, is_before, is_for, link_turn};

    /// A link behind which no neighbour is known, with the metric that it was declared with. It takes no memory.
    pub fn new(end: LinkEnd) -> MonitoredLink
        ensures { result ≡ monitored end }
    {
        MonitoredLink {
            metric: end.metric,
            end,
            neighbour: None,
            is_drained: false,
        }
    }

    /// Its interface is less, byte by byte.
    pub fn is_before(&self, other: &MonitoredLink) -> bool
        ensures { result ≡ is_before self.now other.now }
    {
        self.end.own_if.as_str() < other.end.own_if.as_str()
    }

    /// The adjacency over it, while a neighbour is there.
    pub fn adjacency(&self) -> Result<Option<Adjacency>, NoMemory>
        ensures { IfOk result (λ a. a ≡ option_map (adjacency self.now) self.now.neighbour) }
    {
        match &self.neighbour {
            Some(node) => Ok(Some(adjacency(self, node)?)),
            None => Ok(None),
        }
    }

    /// An item for this link.
    fn is_for(&self, link: u32) -> bool
        ensures { result ≡ is_for self.now link }
    {
        self.end.link == link
    }

    /// A neighbour is there.
    fn come_up(
        &mut self,
        link: u32,
        peer: &Name,
        peer_if: &Name,
        out: &mut Outbox,
    ) -> Result<(), NoMemory>
        ensures link { OnOk result (self.new ≡ record self.old { neighbour = Some (record { name = peer.now; interface = peer_if.now }) }) }
        ensures sent { OnOk result (out.new ≡ out.old ++ To store_port (PeerUp link peer.now) ∷ []) }
    {
        let name = peer.copied()?;
        let interface = peer_if.copied()?;
        let peer = peer.copied()?;
        out.send(STORE_PORT, Item::PeerUp { link, peer })?;
        self.neighbour = Some(AdjacentNode { name, interface });
        Ok(())
    }

    /// The neighbour is gone.
    fn go_down(&mut self, link: u32, out: &mut Outbox) -> Result<(), NoMemory>
        ensures link { OnOk result (self.new ≡ record self.old { neighbour = None }) }
        ensures sent { OnOk result (out.new ≡ out.old ++ To store_port (PeerDown link) ∷ []) }
    {
        out.send(STORE_PORT, Item::PeerDown { link })?;
        self.neighbour = None;
        Ok(())
    }

    /// One turn.
    #[tactic(auto, unfolding(crate::specs::LinkMonitor::link_turn))]
    pub fn turn(&mut self, item: &Item, out: &mut Outbox) -> Result<(), NoMemory>
        ensures link { OnOk result (self.new ≡ (link_turn self.old item.now).0) }
        ensures sent { OnOk result (out.new ≡ out.old ++ (link_turn self.old item.now).1) }
    {
        match item {
            Item::NeighbourUp {
                link,
                peer,
                peer_if,
            } => {
                if self.is_for(*link) {
                    self.come_up(*link, peer, peer_if, out)?;
                }
            }
            Item::NeighbourDown { link } => {
                if self.is_for(*link) {
                    self.go_down(*link, out)?;
                }
            }
            Item::LinkDrain { link, on } => {
                if self.is_for(*link) {
                    self.is_drained = *on;
                }
            }
            Item::Metric { link, metric } => {
                if self.is_for(*link) {
                    self.metric = *metric;
                }
            }
            _other => {}
        }
        Ok(())
    }
}
