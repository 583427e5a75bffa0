ghost use Rattle.std.specs.Prelude.{◌≡◌, ◌+◌, ◌&&◌, ◌||◌, ◌++◌, ◌∷◌, [], ℕ, List, Some, true, false, IfOk, OnOk, if◌then◌else◌};
ghost use Rattle.std.specs.List.{flat_map, list_any};
ghost use Rattle.std.specs.List.Sorted.{IsStrictlySortedBy};
ghost use Rattle.std.specs.Str.{bytes_eq};
ghost use Rattle.or_base.specs.Order.{bytes_cmp};
ghost use Rattle.ls_graph.specs.declared.arc.Arc.{Arc as ArcValue};
ghost use Rattle.ls_spf.specs.Least.{least_cost, add_up_to};
ghost use Rattle.ls_spf.specs.Local.{handed_on};
ghost use Rattle.ls_spf.specs.Search.{cost_in, waits_in, WaitRightly};
ghost use Rattle.ls_spf.specs.Table.{AreArcs, IsRight, hops_of, right_row, tight_arcs};
ghost use Rattle.ls_spf.specs.Rows.{is_in, row_in, is_tight, tight_to, arcs_in, AreLeast, AreRightBelow};

use crate::search::{next, wait_for};
use crate::table::PathRow;
use ls_graph::Arc;
use or_base::{Name, NoMemory, Seq};
use std::alloc::Global;
use std::collections::{BTreeMap, BTreeSet};

/// The node that the arc leaves has a cost, and this and the metric add up to `cost`.
fn adds_up(costs: &BTreeMap<Name, u64>, arc: &Arc, cost: u64) -> bool
    ensures { result ≡ add_up_to (Some cost) arc.now.metric (cost_in costs.now arc.now.from) }
{
    let metric = u64::from(arc.metric);
    match costs.get(&arc.from) {
        None => false,
        Some(start) => metric <= cost && cost - metric == *start,
    }
}

/// The arc is the last of a least walk to the node that it leads to.
fn is_tight(costs: &BTreeMap<Name, u64>, arc: &Arc) -> bool
    ensures { result ≡ is_tight (cost_in costs.now) arc.now }
{
    match costs.get(&arc.to) {
        None => false,
        Some(cost) => adds_up(costs, arc, *cost),
    }
}

/// Takes the arcs of a node out of the map.
#[tactic(auto, using(crate::proofs::Steps::names_tied))]
fn take_arcs(alloc: Global, all: &mut BTreeMap<Name, Vec<Arc>>, node: &Name) -> Vec<Arc>
    ensures taken { result.items ≡ arcs_in all.old (λ v. v.items) node.now }
    ensures others { (q : List ℕ) → bytes_eq node.now q ≡ false → arcs_in all.new (λ v. v.items) q ≡ arcs_in all.old (λ v. v.items) q }
{
    match all.remove(node) {
        None => Vec::new(alloc),
        Some(arcs) => arcs,
    }
}

/// Puts an arc behind those of the node that it leads to.
#[tactic(auto, using(crate::proofs::Steps::names_tied))]
fn put_arc(alloc: Global, all: &mut BTreeMap<Name, Vec<Arc>>, arc: &Arc) -> Result<(), NoMemory>
    ensures { OnOk result ((q : List ℕ) → arcs_in all.new (λ v. v.items) q ≡ (if bytes_eq arc.now.to q then arcs_in all.old (λ v. v.items) q ++ arc.now ∷ [] else arcs_in all.old (λ v. v.items) q)) }
{
    let mut arcs = take_arcs(alloc, all, &arc.to);
    arcs.push(arc.copied()?)?;
    all.insert(arc.to.copied()?, arcs)?;
    Ok(())
}

/// The arcs by which least walks end, by the node that they lead to.
fn all_tight(
    alloc: Global,
    costs: &BTreeMap<Name, u64>,
    arcs: &[Arc],
) -> Result<BTreeMap<Name, Vec<Arc>>, NoMemory>
    ensures { IfOk result (λ all. (q : List ℕ) → arcs_in all (λ v. v.items) q ≡ tight_to (cost_in costs.now) q arcs.now) }
{
    let mut all = BTreeMap::new(alloc);
    for arc in arcs {
        if is_tight(costs, arc) {
            put_arc(alloc, &mut all, arc)?;
        }
    }
    Ok(all)
}

/// Puts a name into the set.
#[tactic(auto, using(crate::proofs::Steps::names_tied))]
fn put(set: &mut BTreeSet<Name>, name: &Name) -> Result<(), NoMemory>
    ensures { OnOk result ((q : List ℕ) → is_in set.new q ≡ (bytes_eq name.now q || is_in set.old q)) }
{
    set.insert(name.copied()?)?;
    Ok(())
}

/// Puts each of these names into the set.
fn put_all(set: &mut BTreeSet<Name>, names: &[Name]) -> Result<(), NoMemory>
    ensures { OnOk result ((q : List ℕ) → is_in set.new q ≡ (list_any (λ x. bytes_eq x q) names.now || is_in set.old q)) }
{
    for name in names {
        put(set, name)?;
    }
    Ok(())
}

/// The hops of a node; none without a row.
pub(crate) fn hops_in<'a>(rows: &'a BTreeMap<Name, PathRow>, node: &Name) -> &'a [Name]
    ensures { result.now ≡ hops_of rows.now.entries node.now }
{
    match rows.get(node) {
        None => &[],
        Some(row) => row.hops.as_slice(),
    }
}

/// Puts the hops that the arc hands on into the set.
fn put_handed_on(
    set: &mut BTreeSet<Name>,
    me: &Name,
    rows: &BTreeMap<Name, PathRow>,
    arc: &Arc,
) -> Result<(), NoMemory>
    ensures { OnOk result ((q : List ℕ) → is_in set.new q ≡ (list_any (λ x. bytes_eq x q) (handed_on me.now (hops_of rows.now.entries) arc.now) || is_in set.old q)) }
{
    if arc.from == *me {
        put(set, &arc.own_if)
    } else {
        put_all(set, hops_in(rows, &arc.from))
    }
}

/// All hops that these arcs hand on, in byte order, each once.
fn hops_by(
    alloc: Global,
    me: &Name,
    rows: &BTreeMap<Name, PathRow>,
    tight: &[Arc],
) -> Result<Vec<Name>, NoMemory>
    ensures sorted { IfOk result (λ hops. IsStrictlySortedBy bytes_cmp hops.items) }
    ensures are { IfOk result (λ hops. (q : List ℕ) → list_any (λ x. bytes_eq x q) hops.items ≡ list_any (λ x. bytes_eq x q) (flat_map (handed_on me.now (hops_of rows.now.entries)) tight.now)) }
{
    let mut set = BTreeSet::new(alloc);
    for arc in tight {
        put_handed_on(&mut set, me, rows, arc)?;
    }
    Ok(set.into_iter().collect(alloc)?)
}

/// The row of a node of this cost, to which these arcs are tight, where the rows of nodes that cost less are right.
fn row_at(
    alloc: Global,
    me: &Name,
    rows: &BTreeMap<Name, PathRow>,
    cost: u64,
    tight: Vec<Arc>,
) -> Result<PathRow, NoMemory>
    ensures { IfOk result (λ row. (arcs : List ArcValue) (node : List ℕ) → AreArcs arcs → AreRightBelow arcs me.now (row_in rows.now) cost
        → least_cost arcs me.now node ≡ Some cost → tight.items ≡ tight_arcs arcs me.now node cost → row ≡ right_row arcs me.now node cost) }
{
    let hops = hops_by(alloc, me, rows, tight.as_slice())?;
    Ok(PathRow {
        cost,
        hops: Seq::from_vec(hops),
        tight: Seq::from_vec(tight),
    })
}

/// All nodes with a cost wait at it.
fn all_wait(alloc: Global, costs: &BTreeMap<Name, u64>) -> Result<BTreeSet<(u64, Name)>, NoMemory>
    ensures at_cost { IfOk result (λ waiting. WaitRightly (cost_in costs.now) (waits_in waiting)) }
    ensures all { IfOk result (λ waiting. (n : ℕ) (q : List ℕ) → cost_in costs.now q ≡ Some n → waits_in waiting n q ≡ true) }
{
    let mut waiting = BTreeSet::new(alloc);
    for (node, cost) in costs {
        wait_for(&mut waiting, node, *cost)?;
    }
    Ok(waiting)
}

/// The node has this row now.
#[tactic(auto, using(crate::proofs::Steps::names_tied))]
pub(crate) fn set_row(
    rows: &mut BTreeMap<Name, PathRow>,
    node: Name,
    row: PathRow,
) -> Result<(), NoMemory>
    ensures { OnOk result ((q : List ℕ) → row_in rows.new q ≡ (if bytes_eq node q then Some row else row_in rows.old q)) }
{
    rows.insert(node, row)?;
    Ok(())
}

/// The rows of all nodes that walks from `me` reach.
pub(crate) fn all_rows(
    alloc: Global,
    me: &Name,
    arcs: &[Arc],
    costs: &BTreeMap<Name, u64>,
) -> Result<BTreeMap<Name, PathRow>, NoMemory>
    requires arcs { AreArcs arcs.now }
    requires least { AreLeast arcs.now me.now (cost_in costs.now) }
    ensures { IfOk result (λ rows. IsRight arcs.now me.now rows.entries) }
{
    let mut waiting = all_wait(alloc, costs)?;
    let mut tight = all_tight(alloc, costs, arcs)?;
    let mut rows = BTreeMap::new(alloc);
    while let Some((cost, node)) = next(&mut waiting) {
        let tight_here = take_arcs(alloc, &mut tight, &node);
        let row = row_at(alloc, me, &rows, cost, tight_here)?;
        set_row(&mut rows, node, row)?;
    }
    Ok(rows)
}
