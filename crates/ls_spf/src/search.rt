ghost use Rattle.std.specs.Prelude.{[], ◌≡◌, ◌+◌, ◌≤◌, ◌<◌, ◌^◌, ◌==◌, ◌&&◌, ℕ, List, Some, true, false, length, IfOk, OnOk, IfSome, IfNone, not, if◌then◌else◌};
ghost use Rattle.std.specs.List.{filter};
ghost use Rattle.std.specs.List.Sorted.{IsStrictlySortedBy};
ghost use Rattle.std.specs.Str.{bytes_eq};
ghost use Rattle.ls_spf.specs.Least.{least_cost};
ghost use Rattle.ls_spf.specs.Search.{cost_in, waits_in, is_before, is_up_to, is_known, is_news, costs_after, waiting_after, WaitRightly, IsSettling};
ghost use Rattle.ls_spf.specs.Table.{AreArcs, place_cmp};
ghost use Rattle.ls_graph.specs.declared.arc.Arc.{Arc as ArcValue};

use ls_graph::Arc;
use or_base::{Name, NoMemory};
use std::alloc::Global;
use std::collections::{BTreeMap, BTreeSet};

/// The node has this cost now.
#[tactic(auto, using(crate::proofs::Steps::names_tied))]
fn set_cost(costs: &mut BTreeMap<Name, u64>, node: &Name, cost: u64) -> Result<(), NoMemory>
    ensures { OnOk result ((q : List ℕ) → cost_in costs.new q ≡ (if bytes_eq node.now q then Some cost else cost_in costs.old q)) }
{
    costs.insert(node.copied()?, cost)?;
    Ok(())
}

/// The node waits at this cost.
#[tactic(auto, using(crate::proofs::Steps::pairs_tied))]
pub(crate) fn wait_for(
    waiting: &mut BTreeSet<(u64, Name)>,
    node: &Name,
    cost: u64,
) -> Result<(), NoMemory>
    ensures { OnOk result ((n : ℕ) (q : List ℕ) → waits_in waiting.new n q ≡ (if (cost == n) && bytes_eq node.now q then true else waits_in waiting.old n q)) }
{
    waiting.insert((cost, node.copied()?))?;
    Ok(())
}

/// The node doesn't wait at its known cost, if it has one.
#[tactic(auto, using(crate::proofs::Steps::pairs_tied))]
fn forget(
    waiting: &mut BTreeSet<(u64, Name)>,
    node: &Name,
    known: Option<u64>,
) -> Result<(), NoMemory>
    ensures { OnOk result ((n : ℕ) (q : List ℕ) → waits_in waiting.new n q ≡ (if is_known known n && bytes_eq node.now q then false else waits_in waiting.old n q)) }
{
    if let Some(cost) = known {
        let pair = (cost, node.copied()?);
        waiting.remove(&pair);
    }
    Ok(())
}

/// The cost is less than the known one.
fn is_news(known: Option<u64>, cost: u64) -> bool
    ensures { result ≡ is_news known cost }
{
    match known {
        None => true,
        Some(known) => cost < known,
    }
}

/// The node is seen at a cost. If that is news it is kept, and the node waits.
fn see(
    costs: &mut BTreeMap<Name, u64>,
    waiting: &mut BTreeSet<(u64, Name)>,
    node: &Name,
    cost: u64,
) -> Result<(), NoMemory>
    requires { WaitRightly (cost_in costs.old) (waits_in waiting.old) }
    ensures costs { OnOk result ((q : List ℕ) → cost_in costs.new q ≡ costs_after (cost_in costs.old) node.now cost q) }
    ensures waiting { OnOk result ((n : ℕ) (q : List ℕ) → waits_in waiting.new n q ≡ waiting_after (cost_in costs.old) (waits_in waiting.old) node.now cost n q) }
{
    let known = costs.get(node).copied();
    if is_news(known, cost) {
        forget(waiting, node, known)?;
        set_cost(costs, node, cost)?;
        wait_for(waiting, node, cost)?;
    }
    Ok(())
}

/// The least node that waits, which then waits no more; none if nothing waits.
pub(crate) fn next(waiting: &mut BTreeSet<(u64, Name)>) -> Option<(u64, Name)>
    ensures waited { IfSome result (λ r. waits_in waiting.old r.0 r.1 ≡ true) }
    ensures least { IfSome result (λ r. (n : ℕ) (q : List ℕ) → waits_in waiting.old n q ≡ true → r.0 ≤ n) }
    ensures gone { IfSome result (λ r. (n : ℕ) (q : List ℕ) → waits_in waiting.new n q ≡ (if (r.0 == n) && bytes_eq r.1 q then false else waits_in waiting.old n q)) }
    ensures none { IfNone result ((n : ℕ) (q : List ℕ) → waits_in waiting.old n q ≡ false) }
    ensures fewer { IfSome result (λ r. length waiting.new.keys + 1 ≡ length waiting.old.keys) }
{
    waiting.pop_first()
}

/// Looks at each arc that leaves a node settled at the cost `start`.
fn look_from(
    costs: &mut BTreeMap<Name, u64>,
    waiting: &mut BTreeSet<(u64, Name)>,
    leaving: &[Arc],
    start: u64,
) -> Result<(), NoMemory>
    requires rightly { WaitRightly (cost_in costs.old) (waits_in waiting.old) }
    requires small { start < 2 ^ 63 }
    ensures { OnOk result ((arcs : List ArcValue) (me node : List ℕ) (most : ℕ) → AreArcs arcs
        → IsSettling arcs me (cost_in costs.old) (waits_in waiting.old) start node most leaving.now
        → IsSettling arcs me (cost_in costs.new) (waits_in waiting.new) start node most []) }
{
    for arc in leaving {
        see(costs, waiting, &arc.to, start + u64::from(arc.metric))?;
    }
    Ok(())
}

/// The arcs that leave the node or one that stands after it.
fn arcs_not_before<'a>(arcs: &'a [Arc], node: &Name) -> &'a [Arc]
    requires { IsStrictlySortedBy place_cmp arcs.now }
    ensures { result.now ≡ filter (λ a. not (is_before node.now a)) arcs.now }
{
    let start = arcs.partition_point(|a| a.from < *node);
    &arcs[start..]
}

/// The arcs that leave the node or one that stands before it.
fn arcs_up_to<'a>(arcs: &'a [Arc], node: &Name) -> &'a [Arc]
    requires { IsStrictlySortedBy place_cmp arcs.now }
    ensures { result.now ≡ filter (is_up_to node.now) arcs.now }
{
    let end = arcs.partition_point(|a| a.from <= *node);
    &arcs[..end]
}

/// The arcs that leave a node. It looks at a few arcs alone.
fn arcs_from<'a>(arcs: &'a [Arc], node: &Name) -> &'a [Arc]
    requires { IsStrictlySortedBy place_cmp arcs.now }
    ensures { result.now ≡ filter (λ a. bytes_eq a.from node.now) arcs.now }
{
    arcs_up_to(arcs_not_before(arcs, node), node)
}

/// The costs of least walks from `me`, by node.
pub(crate) fn least_costs(
    alloc: Global,
    me: &Name,
    arcs: &[Arc],
) -> Result<BTreeMap<Name, u64>, NoMemory>
    requires { AreArcs arcs.now }
    ensures { IfOk result (λ costs. (q : List ℕ) → cost_in costs q ≡ least_cost arcs.now me.now q) }
{
    let mut costs = BTreeMap::new(alloc);
    let mut waiting = BTreeSet::new(alloc);
    set_cost(&mut costs, me, 0)?;
    wait_for(&mut waiting, me, 0)?;
    while let Some((start, node)) = next(&mut waiting) {
        look_from(&mut costs, &mut waiting, arcs_from(arcs, &node), start)?;
    }
    Ok(costs)
}
