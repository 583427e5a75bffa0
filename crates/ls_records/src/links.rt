ghost use Rattle.std.specs.Prelude.{◌≡◌, [], false, option_copied, IfOk, IfSome, OnOk};
ghost use Rattle.std.specs.List.Sorted.{IsStrictlySortedBy};
ghost use Rattle.std.specs.Map.{keys_of};
ghost use Rattle.or_base.specs.Order.{bytes_cmp};
ghost use Rattle.ls_graph.specs.Arcs.{database_of, usable_arcs};
ghost use Rattle.ls_graph.specs.Changes.{AreChanges};
ghost use Rattle.ls_graph.specs.State.{AreUsable, IsSettled, IsSoundDatabase};
ghost use Rattle.ls_records.specs.Change.{is_overloaded};
ghost use Rattle.ls_records.specs.Step.{changed};
ghost use Rattle.ls_records.specs.Links.{known_links, with_record, CoversLinks};

use ls_graph::{Arc, LinkChange, LinkState, usable_arcs_are_these};
use or_base::{AdjDb, Name, NoMemory};
use std::alloc::Global;
use std::marker::Model;

/// The link records that the node `me` knows, and the arcs that it may use by them. Without memory for them there are none.
#[derive(Drop)]
pub struct Links {
    alloc: Global,
    me: Name,
    state: Option<LinkState>,
}

impl Model for Links {
    ghost use Rattle.ls_graph.specs.State.{KnownLinks};
    ghost use Rattle.ls_records.specs.Links.{known_links, AreLinksOf};

    ghost Value = { KnownLinks };

    ghost view = { λ l. known_links l.me l.state };

    ghost invariant = { λ l. AreLinksOf l.me l.state };
}

impl Links {
    /// No link record. It takes no memory.
    pub fn new(alloc: Global, me: Name) -> Links
        ensures { result ≡ record { me = me; databases = []; in_force = [] } }
    {
        Links {
            alloc,
            me,
            state: None,
        }
    }

    /// The node that knows them.
    pub fn me(&self) -> &Name
        ensures { result.now ≡ self.now.me }
    {
        &self.me
    }

    /// The arcs that the node may use.
    pub fn arcs(&self) -> &[Arc]
        ensures arcs { result.now ≡ self.now.in_force }
        ensures usable { AreUsable self.now.me self.now.databases result.now }
        ensures settled { IsSettled self.now }
    {
        match &self.state {
            Some(state) => usable(state),
            None => no_arcs(&self.me),
        }
    }

    /// The node's link record, if it has one.
    fn record(&self, node: &Name) -> Option<&AdjDb>
        ensures { option_copied result ≡ database_of self.now.databases node.now }
    {
        match &self.state {
            Some(state) => state.database(node),
            None => None,
        }
    }

    /// The node takes no transit traffic, by its link record.
    pub fn is_overloaded(&self, node: &Name) -> bool
        ensures { result ≡ is_overloaded self.now.databases node.now }
    {
        match self.record(node) {
            Some(db) => db.overload,
            None => false,
        }
    }

    /// The node has this link record, or none. Gives what changes of the arcs, and whether the node takes transit traffic now
    /// and didn't, or no longer does. Where memory runs out there may be no link records.
    pub fn hold(
        &mut self,
        node: &Name,
        db: Option<AdjDb>,
    ) -> Result<(Vec<LinkChange>, bool), NoMemory>
        requires { IfSome db (λ d. IsSoundDatabase d × (d.node ≡ node.now)) }
        ensures ok { OnOk result (self.new ≡ with_record self.old node.now db) }
        ensures me { self.new.me ≡ self.old.me }
        ensures covers { IfOk result (λ change. CoversLinks self.old self.new change.0.items node.now change.1) }
    {
        let was = self.is_overloaded(node);
        let state = state_or_new(self.alloc, &self.me, self.state.take())?;
        let (state, changes) = replaced(state, node, db)?;
        self.state = Some(state);
        let is = self.is_overloaded(node);
        Ok((changes, was != is))
    }

    /// No link record is left.
    pub fn clear(&mut self)
        ensures { self.new ≡ record { me = self.old.me; databases = []; in_force = [] } }
    {
        self.state = None;
    }
}

/// The state of the links; where there is none, one without link records.
fn state_or_new(alloc: Global, me: &Name, state: Option<LinkState>) -> Result<LinkState, NoMemory>
    requires { IfSome state (λ links. (links.me ≡ me.now) × IsSettled links) }
    ensures state { IfOk result (λ links. links ≡ known_links me.now state) }
    ensures settled { IfOk result (λ links. IsSettled links) }
{
    match state {
        Some(state) => Ok(state),
        None => Ok(LinkState::new(alloc, me.copied()?)),
    }
}

/// The node has this database, or none, and all changes are in force. Gives them.
fn replaced(
    links: LinkState,
    node: &Name,
    db: Option<AdjDb>,
) -> Result<(LinkState, Vec<LinkChange>), NoMemory>
    requires settled { IsSettled links }
    requires sound { IfSome db (λ d. IsSoundDatabase d × (d.node ≡ node.now)) }
    ensures after { IfOk result (λ p. p.0 ≡ with_record links node.now db) }
    ensures changes { IfOk result (λ p. AreChanges links.in_force p.0.in_force p.1.items) }
    ensures by_name { IsStrictlySortedBy bytes_cmp (keys_of links.databases) }
{
    links.databases_are_sound();
    let mut after = links;
    let changes = change(&mut after, node, db)?;
    after.settle(changes.as_slice())?;
    Ok((after, changes))
}

/// The node has this database, or none. Gives what changes of the arcs in force.
fn change(
    links: &mut LinkState,
    node: &Name,
    db: Option<AdjDb>,
) -> Result<Vec<LinkChange>, NoMemory>
    requires settled { IsSettled links.old }
    requires sound { IfSome db (λ d. IsSoundDatabase d × (d.node ≡ node.now)) }
    ensures changes { IfOk result (λ changes. AreChanges links.old.in_force (usable_arcs links.old.me (changed links.old.databases node.now db)) changes.items) }
    ensures ok { OnOk result (links.new ≡ record links.old { databases = changed links.old.databases node.now db }) }
{
    match db {
        Some(db) => Ok(links.put(db)?),
        None => Ok(links.remove(node)?),
    }
}

/// Without link records there is no arc.
#[tactic(auto, unfolding(ls_graph::specs::Arcs::usable_arcs))]
fn no_arcs<'a>(me: &Name) -> &'a [Arc]
    ensures arcs { result.now ≡ [] }
    ensures usable { AreUsable me.now [] result.now }
    ensures settled { [] ≡ usable_arcs me.now [] }
{
    usable_arcs_are_these();
    &[]
}

/// The arcs in force, where all changes are.
#[tactic(auto, using(crate::proofs::Usable::usable_by))]
fn usable(state: &LinkState) -> &[Arc]
    requires { IsSettled state.now }
    ensures arcs { result.now ≡ state.now.in_force }
    ensures usable { AreUsable state.now.me state.now.databases result.now }
{
    usable_arcs_are_these();
    state.databases_are_sound();
    state.arcs()
}
