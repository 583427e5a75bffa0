ghost use Rattle.std.specs.Prelude.{◌≡◌, ◌++◌, [], ◌∷◌, option_to_list, if◌then◌else◌, IfOk, OnOk};
ghost use Rattle.ls_spf.specs.Table.{IsRight};
ghost use Rattle.ls_routes.specs.Routes.{route_to, is_gone, route_set, delta_at};
ghost use Rattle.decision_core.specs.Scratch.{route_for};

use crate::route::route_for;
use ls_records::Records;
use ls_routes::RouteDb;
use ls_spf::PathTable;
use or_base::{Delta, NoMemory, Prefix, Route, Seq};
use std::alloc::Global;

/// Adds what changes at a prefix, to which the route is now this one, or none.
fn add_change(
    del: &mut Vec<Prefix>,
    set: &mut Vec<Route>,
    routes: &RouteDb,
    prefix: &Prefix,
    route: Option<Route>,
) -> Result<(), NoMemory>
    ensures del { OnOk result (del.new.items ≡ del.old.items ++ (if is_gone (route_to routes.now prefix.now) route then prefix.now ∷ [] else [])) }
    ensures set { OnOk result (set.new.items ≡ set.old.items ++ option_to_list (route_set (route_to routes.now prefix.now) route)) }
{
    match route {
        None => {
            if routes.route_of(prefix).is_some() {
                del.push(*prefix)?;
            }
        }
        Some(route) => {
            if !routes.has(prefix, &route) {
                set.push(route)?;
            }
        }
    }
    Ok(())
}

/// What changes from these routes to those that follow from the records, at these prefixes.
pub fn delta_at(
    alloc: Global,
    records: &Records,
    table: &PathTable,
    routes: &RouteDb,
    places: &[Prefix],
) -> Result<Delta, NoMemory>
    requires { IsRight records.now.arcs records.now.me table.now.rows }
    ensures { IfOk result (λ delta. delta ≡ delta_at (route_to routes.now) (route_for records.now) places.now) }
{
    let mut del = Vec::new(alloc);
    let mut set = Vec::new(alloc);
    for prefix in places {
        let route = route_for(alloc, records, table, prefix)?;
        add_change(&mut del, &mut set, routes, prefix, route)?;
    }
    Ok(Delta {
        del: Seq::from_vec(del),
        set: Seq::from_vec(set),
    })
}
