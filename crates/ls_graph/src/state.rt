ghost use Rattle.std.specs.Prelude.{◌≡◌, [], option_copied, IfSome, IfOk, OnOk, OnErr};
ghost use Rattle.ls_graph.specs.Arcs.{usable_arcs, database_of};
ghost use Rattle.ls_graph.specs.Changes.{AreChanges, AreByPlace, with_change, with_changes};
ghost use Rattle.ls_graph.specs.State.{IsSoundDatabase, AreSoundDatabases, IsSettled, changed_databases, with_database, without_database};

use crate::arc::Arc;
use crate::change::LinkChange;
use crate::changes::changes_among;
use crate::ends::changed_ends;
use crate::later::Later;
use crate::search::{put_arc, take_arc};
use or_base::{AdjDb, Name, NoMemory};
use std::alloc::Global;
use std::collections::BTreeMap;
use std::marker::Model;

/// What a node knows of the links: the databases that nodes reported, by the names of the nodes, and the arcs in force, which
/// it uses now.
#[derive(Drop)]
pub struct LinkState {
    me: Name,
    databases: BTreeMap<Name, AdjDb>,
    in_force: Vec<Arc>,
    alloc: Global,
}

impl Model for LinkState {
    ghost use Rattle.ls_graph.specs.Changes.{AreByPlace};
    ghost use Rattle.ls_graph.specs.State.{KnownLinks, AreSoundDatabases};

    ghost Value = { KnownLinks };

    ghost view = { λ s. record { me = s.me; databases = s.databases.entries; in_force = s.in_force.items } };

    ghost invariant = { λ s. AreSoundDatabases s.databases.entries × AreByPlace s.in_force.items };
}

impl LinkState {
    /// What the node `me` knows before any report: no database, and no arc in force.
    #[tactic(auto, unfolding(crate::specs::Arcs::usable_arcs))]
    pub fn new(alloc: Global, me: Name) -> LinkState
        ensures state { result ≡ record { me = me; databases = []; in_force = [] } }
        ensures settled { IsSettled result }
    {
        LinkState {
            me,
            databases: BTreeMap::new(alloc),
            in_force: Vec::new(alloc),
            alloc,
        }
    }

    /// What changes from the arcs in force to those that the node may use once `node` has this database, or none.
    fn changes_to(&self, node: &Name, db: Option<&AdjDb>) -> Result<Vec<LinkChange>, NoMemory>
        requires sound { IfSome (option_copied db) IsSoundDatabase }
        requires settled { IsSettled self.now }
        ensures { IfOk result (λ changes. AreChanges self.now.in_force (usable_arcs self.now.me (changed_databases self.now.databases node.now (option_copied db.entry))) changes.items) }
    {
        let later = Later::new(&self.databases, node, db);
        let places = changed_ends(self.alloc, node, self.databases.get(node), db)?;
        let changes = changes_among(self.alloc, &self.in_force, &self.me, &later, &places)?;
        Ok(changes)
    }

    /// The database of `db.node` is `db`. Gives what changes from the arcs in force to those that the node may use then, and
    /// leaves the arcs in force as they are. It looks at the links that the old and the new database report, and at no others.
    /// Where memory runs out nothing changes.
    pub fn put(&mut self, db: AdjDb) -> Result<Vec<LinkChange>, NoMemory>
        requires sound { IsSoundDatabase db }
        requires settled { IsSettled self.old }
        ensures changes { IfOk result (λ changes. AreChanges self.old.in_force (usable_arcs self.old.me (with_database self.old.databases db.node db)) changes.items) }
        ensures ok { OnOk result (self.new ≡ record self.old { databases = with_database self.old.databases db.node db }) }
        ensures err { OnErr result (self.new ≡ self.old) }
    {
        let changes = self.changes_to(&db.node, Some(&db))?;
        let node = db.node.copied()?;
        let _old = self.databases.insert(node, db)?;
        Ok(changes)
    }

    /// The node has no database. Gives what changes from the arcs in force to those that the node `me` may use then, and leaves
    /// the arcs in force as they are. It looks at the links that the old database reports, and at no others. Where memory runs
    /// out nothing changes.
    pub fn remove(&mut self, node: &Name) -> Result<Vec<LinkChange>, NoMemory>
        requires { IsSettled self.old }
        ensures changes { IfOk result (λ changes. AreChanges self.old.in_force (usable_arcs self.old.me (without_database self.old.databases node.now)) changes.items) }
        ensures ok { OnOk result (self.new ≡ record self.old { databases = without_database self.old.databases node.now }) }
        ensures err { OnErr result (self.new ≡ self.old) }
    {
        let changes = self.changes_to(node, None)?;
        let _old = self.databases.remove(node);
        Ok(changes)
    }

    /// Puts one change in force. Where memory runs out nothing changes.
    pub fn apply(&mut self, change: &LinkChange) -> Result<(), NoMemory>
        ensures ok { OnOk result (self.new ≡ record self.old { in_force = with_change self.old.in_force change.now }) }
        ensures err { OnErr result (self.new ≡ self.old) }
    {
        match change.new {
            None => take_arc(&mut self.in_force, &change.arc),
            Some(_) => put_arc(&mut self.in_force, change.arc.copied()?)?,
        }
        Ok(())
    }

    /// Puts changes in force, in their order: all that the last `put` or `remove` gave. Where memory runs out some of them may be
    /// in force.
    pub fn settle(&mut self, changes: &[LinkChange]) -> Result<(), NoMemory>
        requires { AreChanges self.old.in_force (usable_arcs self.old.me self.old.databases) changes.now }
        ensures ok { OnOk result (self.new ≡ record self.old { in_force = usable_arcs self.old.me self.old.databases }) }
        ensures settled { OnOk result (IsSettled self.new) }
        ensures me { self.new.me ≡ self.old.me }
        ensures databases { self.new.databases ≡ self.old.databases }
    {
        self.databases_are_sound();
        let _arcs = self.arcs();
        self.apply_each(changes)?;
        Ok(())
    }

    /// Puts changes in force, in their order. Where memory runs out some of them may be in force.
    fn apply_each(&mut self, changes: &[LinkChange]) -> Result<(), NoMemory>
        ensures ok { OnOk result (self.new ≡ record self.old { in_force = with_changes self.old.in_force changes.now }) }
        ensures me { self.new.me ≡ self.old.me }
        ensures databases { self.new.databases ≡ self.old.databases }
    {
        for change in changes {
            self.apply(change)?;
        }
        Ok(())
    }

    /// The arcs in force, in the order of the nodes that they leave and of the interfaces there, at most one for each interface.
    pub fn arcs(&self) -> &[Arc]
        ensures arcs { result.now ≡ self.now.in_force }
        ensures by_place { AreByPlace result.now }
    {
        &self.in_force
    }

    /// The database of a node, if it has one.
    pub fn database(&self, node: &Name) -> Option<&AdjDb>
        ensures { option_copied result ≡ database_of self.now.databases node.now }
    {
        self.databases.get(node)
    }

    /// Databases are in the order of their names, and in each of them no own interface stands twice and metrics are within their
    /// limit. It does nothing.
    pub fn databases_are_sound(&self)
        ensures { AreSoundDatabases self.now.databases }
    {
        let _databases = &self.databases;
    }
}
