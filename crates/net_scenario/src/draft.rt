ghost use Rattle.std.specs.Prelude.{◌≡◌, ◌<◌, ◌^◌, ◌++◌, ◌∷◌, [], length, true, OnOk, map};
ghost use Rattle.or_base.specs.declared.kind.Kind.TheVariants.{Stores};
ghost use Rattle.net_laboratory.specs.Scenario.{is_declared};
ghost use Rattle.net_scenario.specs.Seen.{nothing_seen, kind_in, with_line, admits};
ghost use Rattle.net_scenario.specs.Tallied.{seen_in, IsTallied};
ghost use Rattle.net_scenario.specs.declared.statement.Statement.TheVariants.{Lab, Node, Link, Command as SaysCommand, Turn as SaysTurn};

use crate::names::Names;
use crate::statement::Statement;
use crate::tally::Tally;
use net_laboratory::{Command, LinkDecl, NodeDecl, Turn};
use or_base::{Kind, NoMemory};
use std::alloc::Global;

/// What the lines so far say, and what that amounts to.
#[derive(Drop)]
pub struct Draft {
    /// None before the line of the laboratory.
    pub kind: Option<Kind>,
    pub ttl: Option<u64>,
    pub nodes: Vec<NodeDecl>,
    pub links: Vec<LinkDecl>,
    pub commands: Vec<Command>,
    pub turns: Vec<Turn>,
    /// The names of the nodes.
    pub names: Names,
    pub tally: Tally,
}

impl Draft {
    /// That of no lines.
    #[tactic(auto, using(crate::proofs::Tallies::nothing_tallied))]
    pub fn new(alloc: Global) -> Draft
        ensures seen { seen_in result ≡ nothing_seen }
        ensures tallied { IsTallied result }
    {
        Draft {
            kind: None,
            ttl: None,
            nodes: Vec::new(alloc),
            links: Vec::new(alloc),
            commands: Vec::new(alloc),
            turns: Vec::new(alloc),
            names: Names::new(alloc),
            tally: Tally::new(alloc),
        }
    }

    /// The kind of the laboratory, once its line was read.
    pub fn kind(&self) -> Kind
        ensures { result ≡ kind_in (seen_in self.now) }
    {
        self.kind.unwrap_or(Kind::Stores)
    }

    /// A node with this name is declared.
    #[tactic(auto, using(crate::proofs::Tallies::among_names))]
    pub fn is_declared(&self, name: &str) -> bool
        requires { IsTallied self.now }
        ensures { result ≡ is_declared self.now.nodes.items name.now }
    {
        self.names.contains(name)
    }

    /// Adds the line of the laboratory.
    #[tactic(auto, unfolding(crate::specs::Seen::with_line), using(crate::proofs::Tallies::one_more))]
    fn add_lab(&mut self, kind: Kind, ttl: Option<u64>)
        requires tallied { IsTallied self.old }
        requires admitted { admits (seen_in self.old) (Lab kind ttl) ≡ true }
        ensures seen { seen_in self.new ≡ with_line (seen_in self.old) (Lab kind ttl) }
        ensures tallied { IsTallied self.new }
    {
        self.kind = Some(kind);
        self.ttl = ttl;
    }

    /// Adds a node.
    #[tactic(auto, unfolding(crate::specs::Seen::with_line), using(crate::proofs::Tallies::one_more))]
    fn add_node(&mut self, alloc: Global, node: NodeDecl) -> Result<(), NoMemory>
        requires tallied { IsTallied self.old }
        requires admitted { admits (seen_in self.old) (Node node) ≡ true }
        ensures seen { OnOk result (seen_in self.new ≡ with_line (seen_in self.old) (Node node)) }
        ensures tallied { OnOk result (IsTallied self.new) }
    {
        let kind = self.kind();
        self.tally.count_node(alloc, kind, &node)?;
        self.names.add(alloc, node.name.as_str())?;
        self.nodes.push(node)?;
        Ok(())
    }

    /// Adds a link.
    #[tactic(auto, unfolding(crate::specs::Seen::with_line), using(crate::proofs::Tallies::one_more))]
    fn add_link(&mut self, link: LinkDecl) -> Result<(), NoMemory>
        requires tallied { IsTallied self.old }
        requires admitted { admits (seen_in self.old) (Link link) ≡ true }
        ensures seen { OnOk result (seen_in self.new ≡ with_line (seen_in self.old) (Link link)) }
        ensures tallied { OnOk result (IsTallied self.new) }
    {
        self.links.push(link)?;
        Ok(())
    }

    /// Adds a command.
    #[tactic(auto, unfolding(crate::specs::Seen::with_line), using(crate::proofs::Tallies::one_more))]
    fn add_command(&mut self, alloc: Global, command: Command) -> Result<(), NoMemory>
        requires tallied { IsTallied self.old }
        requires admitted { admits (seen_in self.old) (SaysCommand command) ≡ true }
        ensures seen { OnOk result (seen_in self.new ≡ with_line (seen_in self.old) (SaysCommand command)) }
        ensures tallied { OnOk result (IsTallied self.new) }
    {
        self.tally.count(alloc, &command)?;
        self.commands.push(command)?;
        Ok(())
    }

    /// Adds a turn.
    #[tactic(auto, unfolding(crate::specs::Seen::with_line), using(crate::proofs::Tallies::one_more))]
    pub fn add_turn(&mut self, turn: Turn) -> Result<(), NoMemory>
        requires tallied { IsTallied self.old }
        requires admitted { admits (seen_in self.old) (SaysTurn turn) ≡ true }
        ensures seen { OnOk result (seen_in self.new ≡ with_line (seen_in self.old) (SaysTurn turn)) }
        ensures tallied { OnOk result (IsTallied self.new) }
    {
        self.turns.push(turn)?;
        Ok(())
    }

    /// Adds what one more line says.
    pub fn add(&mut self, alloc: Global, statement: Statement) -> Result<(), NoMemory>
        requires tallied { IsTallied self.old }
        requires admitted { admits (seen_in self.old) statement ≡ true }
        ensures seen { OnOk result (seen_in self.new ≡ with_line (seen_in self.old) statement) }
        ensures tallied { OnOk result (IsTallied self.new) }
    {
        match statement {
            Statement::Lab { kind, ttl } => self.add_lab(kind, ttl),
            Statement::Node { node } => self.add_node(alloc, node)?,
            Statement::Link { link } => self.add_link(link)?,
            Statement::Command { command } => self.add_command(alloc, command)?,
            Statement::Turn { turn } => self.add_turn(turn)?,
        }
        Ok(())
    }
}
