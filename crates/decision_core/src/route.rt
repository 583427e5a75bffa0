ghost use Rattle.std.specs.Prelude.{◌≡◌, [], fold, option_map, IfOk, OnOk};
ghost use Rattle.std.specs.List.{flat_map};
ghost use Rattle.std.specs.BTreeSet.{insert_key};
ghost use Rattle.or_base.specs.Order.{bytes_cmp};
ghost use Rattle.ls_spf.specs.Least.{first_interfaces};
ghost use Rattle.ls_spf.specs.Table.{IsRight};
ghost use Rattle.ls_routes.specs.Routes.{route_to};
ghost use Rattle.decision_core.specs.Scratch.{hops_to, route_over, route_for};

use crate::offers::offers_for;
use ls_records::Records;
use ls_routes::RouteDb;
use ls_select::{Selected, select};
use ls_spf::PathTable;
use or_base::{Name, NoMemory, Prefix, Route, Seq};
use std::alloc::Global;
use std::collections::BTreeSet;

/// Adds interfaces to a set of them.
fn add_hops(all: &mut BTreeSet<Name>, hops: &[Name]) -> Result<(), NoMemory>
    ensures { OnOk result (all.new.keys ≡ fold (insert_key bytes_cmp) all.old.keys hops.now) }
{
    for hop in hops {
        all.insert(hop.copied()?)?;
    }
    Ok(())
}

/// The interfaces by which least walks to the node begin.
#[tactic(auto, using(crate::proofs::Paths::hops_told))]
fn first_interfaces<'a>(records: &Records, table: &'a PathTable, node: &Name) -> &'a [Name]
    requires { IsRight records.now.arcs records.now.me table.now.rows }
    ensures { result.now ≡ first_interfaces records.now.arcs records.now.me node.now }
{
    let _records = records;
    table.hops(node)
}

/// Adds the interfaces by which least walks to these nodes begin.
fn add_all_hops(
    all: &mut BTreeSet<Name>,
    records: &Records,
    table: &PathTable,
    nodes: &[Name],
) -> Result<(), NoMemory>
    requires { IsRight records.now.arcs records.now.me table.now.rows }
    ensures { OnOk result (all.new.keys ≡ fold (insert_key bytes_cmp) all.old.keys (flat_map (first_interfaces records.now.arcs records.now.me) nodes.now)) }
{
    for node in nodes {
        add_hops(all, first_interfaces(records, table, node))?;
    }
    Ok(())
}

/// The interfaces by which least walks to these nodes begin, in byte order, each once.
fn hops_to(
    alloc: Global,
    records: &Records,
    table: &PathTable,
    nodes: &[Name],
) -> Result<Vec<Name>, NoMemory>
    requires { IsRight records.now.arcs records.now.me table.now.rows }
    ensures { IfOk result (λ hops. hops.items ≡ hops_to records.now nodes.now) }
{
    let mut all = BTreeSet::new(alloc);
    add_all_hops(&mut all, records, table, nodes)?;
    let mut hops = Vec::new(alloc);
    for hop in all {
        hops.push(hop)?;
    }
    Ok(hops)
}

/// The route to a prefix over the selected nodes.
fn route_over(
    alloc: Global,
    records: &Records,
    table: &PathTable,
    prefix: &Prefix,
    selected: &Selected,
) -> Result<Route, NoMemory>
    requires { IsRight records.now.arcs records.now.me table.now.rows }
    ensures { IfOk result (λ route. route ≡ route_over records.now prefix.now selected.now) }
{
    let hops = hops_to(alloc, records, table, selected.nodes.as_slice())?;
    Ok(Route {
        prefix: *prefix,
        cost: selected.cost,
        hops: Seq::from_vec(hops),
    })
}

/// The route to exactly this prefix, if there is one.
#[tactic(auto, unfolding(crate::specs::Scratch::route_for))]
pub fn route_for(
    alloc: Global,
    records: &Records,
    table: &PathTable,
    prefix: &Prefix,
) -> Result<Option<Route>, NoMemory>
    requires { IsRight records.now.arcs records.now.me table.now.rows }
    ensures { IfOk result (λ route. route ≡ route_for records.now prefix.now) }
{
    let offers = offers_for(alloc, records, table, prefix)?;
    match select(alloc, records.me(), offers)? {
        Some(selected) => Ok(Some(route_over(alloc, records, table, prefix, &selected)?)),
        None => Ok(None),
    }
}

/// A copy of the route to exactly this prefix, if there is one among these.
pub fn copied_route(routes: &RouteDb, prefix: &Prefix) -> Result<Option<Route>, NoMemory>
    ensures { IfOk result (λ route. route ≡ route_to routes.now prefix.now) }
{
    match routes.route_of(prefix) {
        Some(route) => Ok(Some(route.copied()?)),
        None => Ok(None),
    }
}
