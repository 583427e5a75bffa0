ghost use Rattle.std.specs.Prelude.{◌≡◌, [], IfOk, OnOk};
ghost use Rattle.ls_spf.specs.Table.{AreArcs, IsRight};
ghost use Rattle.ls_records.specs.Change.{KnownRecords, TellsAll, known_after};
ghost use Rattle.ls_records.specs.Step.{taken};
ghost use Rattle.ls_routes.specs.Routes.{delta_at, delta_between, route_changed, route_to};
ghost use Rattle.decision_core.specs.Scratch.{route_for, routes_over};
ghost use Rattle.decision_core.specs.History.{with_change};
ghost use Rattle.decision_core.specs.Reach.{IsRightElsewhere, IsRightAfter};

use crate::changed::delta_at;
use crate::history::History;
use crate::reach::{add_moved, changed_places, listed};
use crate::route::route_for;
use ls_graph::Arc;
use ls_records::{RecordChange, Records};
use ls_routes::RouteDb;
use ls_spf::{PathTable, paths, slack_changes_keep_right};
use or_base::{Delta, JournalEntry, Name, NoMemory, Prefix, Route};
use std::alloc::Global;
use std::marker::Model;

/// The records that a node knows, the least walks over its arcs, and the routes that follow.
#[derive(Drop)]
pub struct Routing {
    records: Records,
    table: PathTable,
    routes: RouteDb,
    alloc: Global,
}

impl Model for Routing {
    ghost use Rattle.std.specs.Prelude.{◌≡◌};
    ghost use Rattle.ls_records.specs.Change.{KnownRecords};
    ghost use Rattle.ls_spf.specs.Table.{AreArcs, IsRight};
    ghost use Rattle.decision_core.specs.Scratch.{routes_over};

    ghost Value = { KnownRecords };

    ghost view = { λ r. r.records };

    ghost invariant = { λ r. AreArcs r.records.arcs × IsRight r.records.arcs r.records.me r.table.rows × (r.routes ≡ routes_over r.records) };
}

/// The arcs that the node may use. It refuses 2^31 arcs and more as too many for memory.
fn few_arcs(records: &Records) -> Result<&[Arc], NoMemory>
    ensures arcs { IfOk result (λ arcs. arcs.now ≡ records.now.arcs) }
    ensures few { IfOk result (λ arcs. AreArcs arcs.now) }
{
    let arcs = records.arcs();
    if arcs.len() >= 1 << 31 {
        return Err(NoMemory);
    }
    Ok(arcs)
}

/// The least walks of a node over the arcs that it may use.
pub fn table_over(alloc: Global, records: &Records) -> Result<PathTable, NoMemory>
    ensures arcs { IfOk result (λ table. AreArcs records.now.arcs) }
    ensures right { IfOk result (λ table. IsRight records.now.arcs records.now.me table.rows) }
{
    let arcs = few_arcs(records)?;
    Ok(paths(alloc, records.me(), arcs)?)
}

/// The route takes the place of the one to the prefix, or nothing does.
fn change_route(routes: &mut RouteDb, prefix: &Prefix, route: Option<Route>) -> Result<(), NoMemory>
    ensures { OnOk result (routes.new ≡ route_changed routes.old prefix.now route) }
{
    match route {
        Some(route) => routes.set(route)?,
        None => routes.remove(prefix),
    }
    Ok(())
}

/// All routes, by their prefixes.
#[tactic(auto, unfolding(crate::specs::Scratch::routes_over))]
pub fn routes_over(alloc: Global, records: &Records, table: &PathTable) -> Result<RouteDb, NoMemory>
    requires { IsRight records.now.arcs records.now.me table.now.rows }
    ensures { IfOk result (λ routes. routes ≡ routes_over records.now) }
{
    let prefixes = records.advertised_prefixes()?;
    let mut routes = RouteDb::new(alloc);
    for prefix in &prefixes {
        let route = route_for(alloc, records, table, prefix)?;
        change_route(&mut routes, prefix, route)?;
    }
    Ok(routes)
}

impl Routing {
    /// What the node `me` knows before any entry: no record, and no route.
    pub fn new(alloc: Global, me: Name) -> Result<Routing, NoMemory>
        ensures { IfOk result (λ routing. routing ≡ known_after me []) }
    {
        let records = Records::new(alloc, me);
        let table = table_over(alloc, &records)?;
        let routes = routes_over(alloc, &records, &table)?;
        Ok(Routing {
            records,
            table,
            routes,
            alloc,
        })
    }

    /// The routes.
    pub fn routes(&self) -> &RouteDb
        ensures { result.now ≡ routes_over self.now }
    {
        &self.routes
    }

    /// What is known with an entry more, which is taken after so many, and what changes of the routes. The routes that are
    /// replaced go into the history.
    pub fn with_entry(
        self,
        entry: &JournalEntry,
        entries: u64,
        history: &mut History,
    ) -> Result<(Routing, Delta), NoMemory>
        ensures known { IfOk result (λ after. after.0 ≡ taken self entry.now) }
        ensures delta { IfOk result (λ after. after.1 ≡ delta_between (routes_over self) (routes_over after.0)) }
        ensures kept { IfOk result (λ after. history.new ≡ with_change history.old entries (routes_over self) after.1) }
    {
        let Routing {
            mut records,
            table,
            routes,
            alloc,
        } = self;
        let change = records.take(entry)?;
        if change.cleared {
            let (after, delta) = anew(alloc, records, &routes)?;
            history.keep(entries, &delta, &routes)?;
            return Ok((after, delta));
        }
        let (after, places) = places_of(alloc, &records, table, &change)?;
        let delta = delta_at(alloc, &records, &after, &routes, places.as_slice())?;
        history.keep(entries, &delta, &routes)?;
        let routing = at_places(alloc, records, after, routes, places.as_slice(), &delta)?;
        Ok((routing, delta))
    }
}

/// The least walks by the records after this change, where they were these before, and the prefixes to which routes may be
/// others. Walks are searched for only where some changed arc is, or may be, the last of a least one.
fn places_of(
    alloc: Global,
    records: &Records,
    before: PathTable,
    change: &RecordChange,
) -> Result<(PathTable, Vec<Prefix>), NoMemory>
    ensures { IfOk result (λ p. (k : KnownRecords) → AreArcs k.arcs → IsRight k.arcs k.me before.rows → TellsAll k records.now change.now → records.now.me ≡ k.me
        → IsRightAfter k records.now p.0.rows p.1.items) }
{
    slack_changes_keep_right();
    let arcs = few_arcs(records)?;
    let mut places = changed_places(
        alloc,
        records.prefix_records(),
        change.prefixes.as_slice(),
        change.transit.as_ref(),
    )?;
    if before.stays(change.links.as_slice()) {
        let places = listed(alloc, &places)?;
        return Ok((before, places));
    }
    let after = paths(alloc, records.me(), arcs)?;
    add_moved(&mut places, records.prefix_records(), &before, &after)?;
    let places = listed(alloc, &places)?;
    Ok((after, places))
}

/// All routes by the records, and what changes from these.
fn anew(alloc: Global, records: Records, old: &RouteDb) -> Result<(Routing, Delta), NoMemory>
    ensures known { IfOk result (λ after. after.0 ≡ records) }
    ensures delta { IfOk result (λ after. after.1 ≡ delta_between old.now (routes_over records)) }
{
    let table = table_over(alloc, &records)?;
    let routes = routes_over(alloc, &records, &table)?;
    let delta = routes.delta_from(old)?;
    let routing = Routing {
        records,
        table,
        routes,
        alloc,
    };
    Ok((routing, delta))
}

/// The routes by the records, where they are these but at some places, and this changes there.
#[tactic(auto, using(crate::proofs::Places::whole_change, crate::proofs::Places::change_leads))]
fn at_places(
    alloc: Global,
    records: Records,
    table: PathTable,
    mut routes: RouteDb,
    places: &[Prefix],
    delta: &Delta,
) -> Result<Routing, NoMemory>
    requires arcs { AreArcs records.arcs }
    requires right { IsRight records.arcs records.me table.rows }
    requires elsewhere { IsRightElsewhere routes records places.now }
    requires delta { delta.now ≡ delta_at (route_to routes) (route_for records) places.now }
    ensures known { IfOk result (λ after. after ≡ records) }
    ensures whole { IfOk result (λ after. delta.now ≡ delta_between routes (routes_over records)) }
{
    let _places = places;
    routes.apply(delta)?;
    Ok(Routing {
        records,
        table,
        routes,
        alloc,
    })
}
