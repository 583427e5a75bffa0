ghost use Rattle.std.specs.Prelude.{◌≡◌, ◌≤◌, true, All, length};
ghost use Rattle.net_laboratory.specs.Limits.{most_nodes, most_links};
ghost use Rattle.net_laboratory.specs.Small.{NamesSmallLink};
ghost use Rattle.net_laboratory.specs.Sound.{is_sound};

use crate::command::Command;
use crate::declared::{LinkDecl, NodeDecl};
use crate::schedule::Schedule;
use or_base::{Kind, Seq};
use std::marker::Model;

/// A laboratory with what is done in it: contracts see its declarations and commands, and each scenario is sound.
#[derive(Drop)]
pub struct Scenario {
    pub kind: Kind,
    /// The lifetime of the records that nodes publish, in milliseconds; without one they live for ever.
    pub ttl: Option<u64>,
    pub nodes: Seq<NodeDecl>,
    pub links: Seq<LinkDecl>,
    /// The last is a settle.
    pub commands: Seq<Command>,
    /// The turns of the run, where they are given.
    pub turns: Option<Schedule>,
}

impl Model for Scenario {
    ghost use Rattle.std.specs.Prelude.{IsTrue};
    ghost use Rattle.net_laboratory.specs.Scenario.{Laboratory};
    ghost use Rattle.net_laboratory.specs.Sound.{is_sound};

    ghost Value = { Laboratory };

    ghost view = { λ s. record { kind = s.kind; ttl = s.ttl; nodes = s.nodes; links = s.links; commands = s.commands; turns = s.turns } };

    ghost invariant = { λ s. IsTrue (is_sound (record { kind = s.kind; ttl = s.ttl; nodes = s.nodes; links = s.links; commands = s.commands; turns = s.turns })) };
}

impl Scenario {
    /// The scenario with these declarations and commands, which keep all limits in order.
    pub fn new(
        kind: Kind,
        ttl: Option<u64>,
        nodes: Seq<NodeDecl>,
        links: Seq<LinkDecl>,
        commands: Seq<Command>,
        turns: Option<Schedule>,
    ) -> Scenario
        requires { is_sound (record { kind = kind; ttl = ttl; nodes = nodes; links = links; commands = commands; turns = turns }) ≡ true }
        ensures { result ≡ record { kind = kind; ttl = ttl; nodes = nodes; links = links; commands = commands; turns = turns } }
    {
        Scenario {
            kind,
            ttl,
            nodes,
            links,
            commands,
            turns,
        }
    }

    /// The nodes, in the order of their declarations: at most [`MOST_NODES`](crate::MOST_NODES).
    #[tactic(auto, using(crate::proofs::Room::few_nodes))]
    pub fn nodes(&self) -> &[NodeDecl]
        ensures nodes { result.now ≡ self.now.nodes }
        ensures few { length result.now ≤ most_nodes }
    {
        self.nodes.as_slice()
    }

    /// The links, in the order of their numbers: at most [`MOST_LINKS`](crate::MOST_LINKS).
    #[tactic(auto, using(crate::proofs::Room::few_links))]
    pub fn links(&self) -> &[LinkDecl]
        ensures links { result.now ≡ self.now.links }
        ensures few { length result.now ≤ most_links }
    {
        self.links.as_slice()
    }

    /// The commands, in order. A link of a node that one names has a number below 2^31.
    pub fn commands(&self) -> &[Command]
        ensures commands { result.now ≡ self.now.commands }
        ensures small { All NamesSmallLink result.now }
    {
        self.commands.as_slice()
    }
}
