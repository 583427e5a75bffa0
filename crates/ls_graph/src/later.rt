ghost use Rattle.std.specs.Prelude.{◌≡◌, option_copied};
ghost use Rattle.ls_graph.specs.Arcs.{database_of};
ghost use Rattle.ls_graph.specs.State.{changed_databases};

use or_base::{AdjDb, Name};
use std::collections::BTreeMap;
use std::marker::Model;

/// The databases as they are once one node has another database, or none. Contracts see them as databases by name.
#[derive(Drop)]
pub struct Later<'a> {
    databases: &'a BTreeMap<Name, AdjDb>,
    node: &'a Name,
    db: Option<&'a AdjDb>,
}

impl<'a> Model for Later<'a> {
    ghost use Rattle.std.specs.Prelude.{ℕ, List, option_copied};
    ghost use Rattle.std.specs.List.Sorted.{IsStrictlySortedBy};
    ghost use Rattle.std.specs.Map.{keys_of};
    ghost use Rattle.or_base.specs.Order.{bytes_cmp};
    ghost use Rattle.or_base.specs.declared.database.AdjDb.{AdjDb};
    ghost use Rattle.ls_graph.specs.State.{changed_databases};

    ghost Value = { List (List ℕ × AdjDb) };

    ghost view = { λ l. changed_databases l.databases.now.entries l.node.now (option_copied l.db) };

    ghost invariant = { λ l. IsStrictlySortedBy bytes_cmp (keys_of l.databases.now.entries) };
}

impl<'a> Later<'a> {
    /// The node has this database, or none, and all others have what they have.
    pub fn new(
        databases: &'a BTreeMap<Name, AdjDb>,
        node: &'a Name,
        db: Option<&'a AdjDb>,
    ) -> Later<'a>
        ensures { result ≡ changed_databases databases.now.entries node.now (option_copied db.entry) }
    {
        let _count = databases.len();
        Later {
            databases,
            node,
            db,
        }
    }

    /// The database of a node, if it has one.
    pub fn database(&self, node: &Name) -> Option<&AdjDb>
        ensures { option_copied result ≡ database_of self.now node.now }
    {
        if *node == *self.node {
            self.db
        } else {
            self.databases.get(node)
        }
    }
}
