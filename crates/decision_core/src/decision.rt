ghost use Rattle.std.specs.Prelude.{◌≡◌, ◌++◌, ◌<◌, ◌^◌, [], ◌∷◌, length, take, option_map, IfOk, OnOk, IsTrue};
ghost use Rattle.or_base.specs.declared.item.Item.TheVariants.{Entry};
ghost use Rattle.or_actor.specs.Fits.{have_small_links};
ghost use Rattle.ls_routes.specs.Routes.{route_to};
ghost use Rattle.ls_records.specs.Change.{known_after};
ghost use Rattle.decision_core.specs.Decision.{new_decision, is_no_change, told_routes, decision_step, routes_of, route_at, route_told, answer};

use crate::from_scratch::scratch;
use crate::history::{History, route_then};
use crate::route::copied_route;
use crate::routing::Routing;
use ls_records::each_entry_is_taken;
use ls_routes::RouteDb;
use or_actor::{FIB_PORT, Module, Outbox, PREFIX_MANAGER_PORT, has_small_link};
use or_base::{Delta, Item, JournalEntry, Name, NoMemory, Prefix, Route, Told};
use std::alloc::Global;
use std::marker::Model;

/// Decision of a node.
#[derive(Drop)]
pub struct DecisionModule {
    alloc: Global,
    me: Name,
    /// The entries that it took, in order.
    taken: Vec<JournalEntry>,
    /// What follows from them. It is gone once memory ran out in a turn.
    routing: Option<Routing>,
    /// The routes that the last of them replaced.
    history: History,
}

impl Model for DecisionModule {
    ghost use Rattle.std.specs.Prelude.{◌≡◌, IfSome};
    ghost use Rattle.ls_records.specs.Change.{known_after};
    ghost use Rattle.decision_core.specs.Decision.{DecisionState};
    ghost use Rattle.decision_core.specs.History.{TellRoutes};

    ghost Value = { DecisionState };

    ghost view = { λ m. record { me = m.me; taken = m.taken.items } };

    ghost invariant = { λ m. IfSome m.routing (λ r. (r ≡ known_after m.me m.taken.items) × TellRoutes m.history m.me m.taken.items) };
}

/// Nothing changes.
fn is_no_change(delta: &Delta) -> bool
    ensures { result ≡ is_no_change delta.now }
{
    delta.del.as_slice().len() == 0 && delta.set.as_slice().len() == 0
}

/// Tells PrefixManager and Fib what changes, unless nothing does.
fn tell(delta: Delta, out: &mut Outbox) -> Result<(), NoMemory>
    ensures { OnOk result (out.new ≡ out.old ++ told_routes delta) }
{
    if is_no_change(&delta) {
        return Ok(());
    }
    let copy = delta.copied()?;
    out.send(PREFIX_MANAGER_PORT, Item::Routes { delta: copy })?;
    out.send(FIB_PORT, Item::Routes { delta })?;
    Ok(())
}

impl DecisionModule {
    /// Decision of the node `me`, which was told of nothing.
    pub fn new(alloc: Global, me: Name) -> Result<DecisionModule, NoMemory>
        ensures { IfOk result (λ decision. decision ≡ new_decision me) }
    {
        let routing = Routing::new(alloc, me.copied()?)?;
        Ok(DecisionModule {
            alloc,
            me,
            taken: Vec::new(alloc),
            routing: Some(routing),
            history: History::new(alloc, 0),
        })
    }

    /// The node.
    pub fn me(&self) -> &Name
        ensures { result.now ≡ self.now.me }
    {
        &self.me
    }

    /// The entries that it took, in order.
    pub fn entries(&self) -> &[JournalEntry]
        ensures entries { result.now ≡ self.now.taken }
        ensures small { length result.now < 2 ^ 63 }
    {
        self.taken.as_slice()
    }

    /// How many entries it took.
    pub fn fed(&self) -> u64
        ensures { result ≡ length self.now.taken }
    {
        self.taken.len() as u64
    }

    /// Its routes: those from scratch over all entries that it took. It fails only once memory ran out in a turn.
    #[tactic(auto, unfolding(crate::specs::Scratch::scratch))]
    pub fn routes(&self) -> Result<&RouteDb, NoMemory>
        ensures { IfOk result (λ routes. routes.now ≡ routes_of self.now) }
    {
        match &self.routing {
            Some(routing) => Ok(routing.routes()),
            None => Err(NoMemory),
        }
    }

    /// The route to exactly this prefix from scratch over the first `at` entries that it took, or over all. Over all, or over
    /// as many as when routes that are kept were replaced, it is found; over fewer it is computed.
    #[tactic(auto, using(crate::proofs::Steps::whole_at))]
    pub fn route_at(&self, at: u64, prefix: &Prefix) -> Result<Option<Route>, NoMemory>
        ensures { IfOk result (λ route. route ≡ route_at self.now at prefix.now) }
    {
        if at >= self.fed() {
            return copied_route(self.routes()?, prefix);
        }
        let Some(routing) = &self.routing else {
            return Err(NoMemory);
        };
        if at < self.history.since() {
            let routes = scratch(self.alloc, &self.me, &self.taken[..at as usize])?;
            return copied_route(&routes, prefix);
        }
        Ok(route_then(&self.history, routing.routes(), at, prefix)?)
    }

    /// The answer to a question for the route to exactly this prefix, of whoever has seen so many entries of the journal.
    /// `Behind`, with the number of entries that it took, comes exactly where these are fewer; else the route that is kept.
    #[tactic(auto, unfolding(crate::specs::Decision::answer))]
    pub fn answer(&self, prefix: &Prefix, seen: u64) -> Result<Told, NoMemory>
        ensures { IfOk result (λ told. told ≡ answer self.now prefix.now seen) }
    {
        if self.fed() < seen {
            return Ok(Told::Behind(self.fed()));
        }
        let route = copied_route(self.routes()?, prefix)?;
        Ok(route_told(route))
    }

    /// Forgets the replaced routes once as many are kept as may be.
    fn forget_if_full(&mut self)
        ensures { self.new ≡ self.old }
    {
        if self.history.is_full() {
            self.history = History::new(self.alloc, self.taken.len() as u64);
        }
    }

    /// One turn with an entry. What changes goes into `out`.
    #[tactic(auto, unfolding(crate::specs::Decision::decision_step, crate::specs::Scratch::scratch))]
    fn take(&mut self, entry: JournalEntry, out: &mut Outbox) -> Result<(), NoMemory>
        ensures state { OnOk result (self.new ≡ (decision_step self.old (Entry entry)).0) }
        ensures sent { OnOk result (out.new ≡ out.old ++ (decision_step self.old (Entry entry)).1) }
    {
        each_entry_is_taken();
        let Some(routing) = self.routing.take() else {
            return Err(NoMemory);
        };
        let entries = self.taken.len() as u64;
        let (after, delta) = routing.with_entry(&entry, entries, &mut self.history)?;
        self.taken.push(entry)?;
        self.routing = Some(after);
        self.forget_if_full();
        tell(delta, out)
    }
}

/// What a route tells whoever asked for it.
pub fn route_told(route: Option<Route>) -> Told
    ensures { result ≡ route_told route }
{
    match route {
        Some(route) => Told::Route(route),
        None => Told::Nothing,
    }
}

impl Module for DecisionModule {
    ghost use Rattle.or_actor.specs.Fits.{has_small_link};
    ghost use Rattle.or_actor.specs.Steps.{finds_nothing};
    ghost use Rattle.decision_core.specs.Decision.{DecisionState, decision_step};

    ghost State = { DecisionState };

    ghost state = { λ m. m };

    ghost may_take = { λ s item. has_small_link item };

    ghost may_find = { λ s item at. finds_nothing at };

    ghost step = { λ s lane item at. decision_step s item };

    fn fits(&self, item: &Item) -> bool {
        has_small_link(item)
    }

    #[tactic(auto, unfolding(crate::specs::Decision::decision_step), using(crate::proofs::Steps::small_step))]
    fn turn(&mut self, _lane: u32, item: Item, out: &mut Outbox) -> Result<u64, NoMemory> {
        match item {
            Item::Entry { entry } => self.take(entry, out)?,
            _other => {}
        }
        Ok(0)
    }
}
