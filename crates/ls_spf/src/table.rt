ghost use Rattle.std.specs.Prelude.{[], ◌≡◌, Some, IfOk, option_copied, option_map};
ghost use Rattle.std.specs.List.{list_all};
ghost use Rattle.ls_spf.specs.Slack.{cost_of, is_slack_between, is_slack_at, is_slack_change};
ghost use Rattle.ls_spf.specs.Table.{IsRight, hops_of, row_of};

use crate::rows::{hops_in, set_row};
use ls_graph::{Arc, LinkChange};
use or_base::{Name, NoMemory, Seq};
use std::alloc::Global;
use std::collections::BTreeMap;
use std::marker::Model;

/// What least walks to a node are.
#[derive(Drop)]
pub struct PathRow {
    /// The cost of a least walk, the sum of its metrics.
    pub cost: u64,
    /// The interfaces by which least walks begin, in byte order, each once.
    pub hops: Seq<Name>,
    /// The arcs by which least walks to the node end, in their order.
    pub tight: Seq<Arc>,
}

/// Least walks from one node: a row for each node that walks from it reach.
#[derive(Drop)]
pub struct PathTable {
    pub(crate) me: Name,
    pub(crate) rows: BTreeMap<Name, PathRow>,
}

impl Model for PathTable {
    ghost use Rattle.ls_spf.specs.Table.{PathTableState};

    ghost Value = { PathTableState };

    ghost view = { λ table. record { me = table.me; rows = table.rows.entries } };
}

/// An arc of this metric from a node of the cost `start` to one of the cost `end` is the last of no least walk: no
/// walk reaches its start, or other walks reach its end for less.
fn is_slack_between(start: Option<u64>, metric: u32, end: Option<u64>) -> bool
    ensures { result ≡ is_slack_between start metric end }
{
    match (start, end) {
        (None, _) => true,
        (Some(_), None) => false,
        (Some(start), Some(end)) => end < start || end - start < u64::from(metric),
    }
}

impl PathTable {
    /// The table where there are no arcs: it has the one row of `me`, of cost 0 and without hops.
    pub fn new(alloc: Global, me: Name) -> Result<PathTable, NoMemory>
        ensures me { IfOk result (λ table. table.me ≡ me) }
        ensures right { IfOk result (λ table. IsRight [] me table.rows) }
    {
        let row = PathRow {
            cost: 0,
            hops: Seq::from_vec(Vec::new(alloc)),
            tight: Seq::from_vec(Vec::new(alloc)),
        };
        let mut rows = BTreeMap::new(alloc);
        set_row(&mut rows, me.copied()?, row)?;
        Ok(PathTable { me, rows })
    }

    /// The node from which the walks lead.
    pub fn me(&self) -> &Name
        ensures { result.now ≡ self.now.me }
    {
        &self.me
    }

    /// What least walks to the node are; none if no walk leads there.
    pub fn row(&self, node: &Name) -> Option<&PathRow>
        ensures { option_copied result ≡ row_of self.now.rows node.now }
    {
        self.rows.get(node)
    }

    /// The cost of a least walk to the node, the sum of its metrics; none if no walk leads there.
    pub fn cost(&self, node: &Name) -> Option<u64>
        ensures { result ≡ option_map (λ row. row.cost) (row_of self.now.rows node.now) }
    {
        self.row(node).map(|row| row.cost)
    }

    /// The interfaces by which least walks to the node begin, in byte order, each once; none if no walk leads there, or
    /// only that which stays.
    pub fn hops(&self, node: &Name) -> &[Name]
        ensures { result.now ≡ hops_of self.now.rows node.now }
    {
        hops_in(&self.rows, node)
    }

    /// The arc would be the last of no least walk if it had this metric, or isn't there.
    fn is_slack_at(&self, arc: &Arc, metric: Option<u32>) -> bool
        ensures { result ≡ is_slack_at self.now.rows arc.now metric }
    {
        match metric {
            None => true,
            Some(metric) => is_slack_between(self.cost(&arc.from), metric, self.cost(&arc.to)),
        }
    }

    /// The changed arc is the last of no least walk, before or after.
    fn is_slack_change(&self, change: &LinkChange) -> bool
        ensures { result ≡ is_slack_change self.now.rows change.now }
    {
        self.is_slack_at(&change.arc, change.old) && self.is_slack_at(&change.arc, change.new)
    }

    /// None of the changed arcs is on a least walk, before or after, so that a table that is right before these changes is
    /// right after them (`slack_changes_keep_right`). It takes no memory.
    pub fn stays(&self, changes: &[LinkChange]) -> bool
        ensures { result ≡ list_all (is_slack_change self.now.rows) changes.now }
    {
        changes.iter().all(|change| self.is_slack_change(change))
    }
}
