ghost use Rattle.std.specs.Prelude.{◌≡◌, ◌<◌, ◌++◌, drop, length, map, IfOk, OnOk};
ghost use Rattle.decision_core.specs.Decision.{routes_of};
ghost use Rattle.net_record.specs.World.{marks_of, all_routes, with_routes, all_fibs, with_fibs, nodes_told};
ghost use Rattle.net_record.specs.Records.{journals_of};

use crate::actor::ActorState;
use crate::record::NodeMark;
use or_base::{JournalEntry, NoMemory, Route, Seq, SyncDone, copied_items};
use std::alloc::Global;

/// The full syncs from this number on.
fn syncs_from(alloc: Global, done: &[SyncDone], told: u64) -> Result<Vec<SyncDone>, NoMemory>
    ensures { IfOk result (λ syncs. syncs.items ≡ drop told done.now) }
{
    if (done.len() as u64) < told {
        return Ok(Vec::new(alloc));
    }
    let syncs = copied_items(alloc, &done[told as usize..])?;
    Ok(syncs)
}

/// What a settle tells of the stores among the actors, in order, beside routes.
fn marks_of(alloc: Global, actors: &[ActorState]) -> Result<Vec<NodeMark>, NoMemory>
    ensures { IfOk result (λ marks. marks.items ≡ marks_of actors.now) }
{
    let mut marks = Vec::new(alloc);
    for actor in actors {
        if let Some(store) = actor.part.store() {
            marks.push(NodeMark {
                entries: store.table().journal().len() as u64,
                stale: store.stale(),
                syncs: Seq::from_vec(syncs_from(alloc, store.done(), actor.told)?),
                routes: Seq::from_vec(Vec::new(alloc)),
                fib_dirty: false,
                fib_routes: 0,
            })?;
        }
    }
    Ok(marks)
}

/// The routes of each Decision among the actors, in order.
fn all_routes(alloc: Global, actors: &[ActorState]) -> Result<Vec<Seq<Route>>, NoMemory>
    ensures { IfOk result (λ all. all.items ≡ all_routes actors.now) }
{
    let mut all = Vec::new(alloc);
    for actor in actors {
        if let Some(decision) = actor.part.decision() {
            let routes = decision.routes()?.routes()?;
            all.push(Seq::from_vec(routes))?;
        }
    }
    Ok(all)
}

/// The marks of nodes with the routes of each.
fn with_routes(
    alloc: Global,
    marks: Vec<NodeMark>,
    all: Vec<Seq<Route>>,
) -> Result<Vec<NodeMark>, NoMemory>
    ensures { IfOk result (λ told. told.items ≡ with_routes marks.items all.items) }
{
    let mut told = Vec::new(alloc);
    let mut routes = all.into_iter();
    for mark in marks {
        match routes.next() {
            Some(routes) => told.push(NodeMark { routes, ..mark })?,
            None => told.push(mark)?,
        }
    }
    Ok(told)
}

/// Where a Fib stands.
#[derive(Drop)]
pub struct FibMark {
    /// Its agent refused its last call, and may lack some of its routes.
    pub dirty: bool,
    /// How many routes the agent has.
    pub routes: u64,
}

/// Where each Fib among the actors stands, in order.
fn all_fibs(alloc: Global, actors: &[ActorState]) -> Result<Vec<FibMark>, NoMemory>
    ensures { IfOk result (λ all. all.items ≡ all_fibs actors.now) }
{
    let mut all = Vec::new(alloc);
    for actor in actors {
        if let Some(fib) = actor.part.fib() {
            all.push(FibMark {
                dirty: fib.dirty(),
                routes: fib.programmed() as u64,
            })?;
        }
    }
    Ok(all)
}

/// The marks of nodes with where the Fib of each stands.
fn with_fibs(
    alloc: Global,
    marks: Vec<NodeMark>,
    all: Vec<FibMark>,
) -> Result<Vec<NodeMark>, NoMemory>
    ensures { IfOk result (λ told. told.items ≡ with_fibs marks.items all.items) }
{
    let mut told = Vec::new(alloc);
    let mut fibs = all.into_iter();
    for mark in marks {
        match fibs.next() {
            Some(fib) => told.push(NodeMark {
                fib_dirty: fib.dirty,
                fib_routes: fib.routes,
                ..mark
            })?,
            None => told.push(mark)?,
        }
    }
    Ok(told)
}

/// What a settle tells of the nodes among the actors, in order; their routes and where Fib stands too, where it shows routes.
#[tactic(auto, unfolding(crate::specs::World::nodes_told))]
pub fn nodes_told(
    alloc: Global,
    actors: &[ActorState],
    shows: bool,
) -> Result<Vec<NodeMark>, NoMemory>
    ensures { IfOk result (λ nodes. nodes.items ≡ nodes_told actors.now shows) }
{
    let marks = marks_of(alloc, actors)?;
    if !shows {
        return Ok(marks);
    }
    let routed = with_routes(alloc, marks, all_routes(alloc, actors)?)?;
    with_fibs(alloc, routed, all_fibs(alloc, actors)?)
}

/// The journals of the stores among the actors, in order. They are moved.
pub fn journals_of(
    alloc: Global,
    actors: Vec<ActorState>,
) -> Result<Vec<Seq<JournalEntry>>, NoMemory>
    ensures { IfOk result (λ journals. journals.items ≡ journals_of actors.items) }
{
    let mut journals = Vec::new(alloc);
    for actor in actors {
        if let Some(journal) = actor.part.into_journal() {
            journals.push(Seq::from_vec(journal))?;
        }
    }
    Ok(journals)
}
