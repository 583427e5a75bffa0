ghost use Rattle.std.specs.Prelude.{◌≡◌, ◌++◌, ◌∷◌, [], map, length, nat_le, option_copied, IfOk, OnOk};
ghost use Rattle.ls_routes.specs.Routes.{route_to};
ghost use Rattle.decision_core.specs.History.{most_replaced, is_replaced_since, first_since, route_then, replaced_at, with_change};

use crate::route::copied_route;
use ls_routes::RouteDb;
use or_base::{Delta, NoMemory, Prefix, Route};
use std::alloc::Global;
use std::marker::Model;

/// The most replaced routes that are kept.
const MOST_REPLACED: usize = 1024;

/// A route in whose place there is another now, or none.
#[derive(Drop)]
pub struct ReplacedRoute {
    /// How many entries had been taken when it was replaced.
    pub entries: u64,
    pub prefix: Prefix,
    /// The route to the prefix; None where there was none.
    pub route: Option<Route>,
}

/// The routes that were replaced since so many entries had been taken, the earliest first.
#[derive(Drop)]
pub struct History {
    since: u64,
    replaced: Vec<ReplacedRoute>,
}

impl Model for History {
    ghost use Rattle.decision_core.specs.History.{HistoryState};

    ghost Value = { HistoryState };

    ghost view = { λ h. record { since = h.since; replaced = h.replaced.items } };
}

/// A copy of the route to the prefix, which is replaced when so many entries have been taken.
fn replaced_route(
    entries: u64,
    prefix: &Prefix,
    routes: &RouteDb,
) -> Result<ReplacedRoute, NoMemory>
    ensures { IfOk result (λ r. r ≡ record { entries = entries; prefix = prefix.now; route = route_to routes.now prefix.now }) }
{
    Ok(ReplacedRoute {
        entries,
        prefix: *prefix,
        route: copied_route(routes, prefix)?,
    })
}

impl ReplacedRoute {
    /// A copy of the route.
    fn copied_route(&self) -> Result<Option<Route>, NoMemory>
        ensures { IfOk result (λ route. route ≡ self.now.route) }
    {
        match &self.route {
            Some(route) => Ok(Some(route.copied()?)),
            None => Ok(None),
        }
    }

    /// The route to this prefix was replaced when so many entries, or more, had been taken.
    fn is_replaced_since(&self, at: u64, prefix: &Prefix) -> bool
        ensures { result ≡ is_replaced_since at prefix.now self.now }
    {
        at <= self.entries && self.prefix.is_same_prefix(prefix)
    }
}

impl History {
    /// No route was replaced since so many entries had been taken.
    pub fn new(alloc: Global, since: u64) -> History
        ensures { result ≡ record { since = since; replaced = [] } }
    {
        History {
            since,
            replaced: Vec::new(alloc),
        }
    }

    /// How many entries had been taken when it began.
    pub fn since(&self) -> u64
        ensures { result ≡ self.now.since }
    {
        self.since
    }

    /// It keeps as many routes as it may, or more.
    pub fn is_full(&self) -> bool
        ensures { result ≡ nat_le most_replaced (length self.now.replaced) }
    {
        self.replaced.len() >= MOST_REPLACED
    }

    /// The first route to the prefix that was replaced when so many entries, or more, had been taken.
    pub fn first_since(&self, at: u64, prefix: &Prefix) -> Option<&ReplacedRoute>
        ensures { option_copied result ≡ first_since self.now.replaced at prefix.now }
    {
        self.replaced
            .iter()
            .find(|r| r.is_replaced_since(at, prefix))
    }

    /// The routes to the prefixes of the change are replaced when so many entries have been taken.
    pub fn keep(&mut self, entries: u64, delta: &Delta, routes: &RouteDb) -> Result<(), NoMemory>
        ensures { OnOk result (self.new ≡ with_change self.old entries routes.now delta.now) }
    {
        add_gone(&mut self.replaced, entries, delta.del.as_slice(), routes)?;
        add_changed(&mut self.replaced, entries, delta.set.as_slice(), routes)?;
        Ok(())
    }
}

/// Adds the routes to these prefixes.
fn add_gone(
    replaced: &mut Vec<ReplacedRoute>,
    entries: u64,
    prefixes: &[Prefix],
    routes: &RouteDb,
) -> Result<(), NoMemory>
    ensures { OnOk result (replaced.new.items ≡ replaced.old.items ++ replaced_at entries routes.now prefixes.now) }
{
    for prefix in prefixes {
        replaced.push(replaced_route(entries, prefix, routes)?)?;
    }
    Ok(())
}

/// Adds the routes to the prefixes of these.
fn add_changed(
    replaced: &mut Vec<ReplacedRoute>,
    entries: u64,
    changed: &[Route],
    routes: &RouteDb,
) -> Result<(), NoMemory>
    ensures { OnOk result (replaced.new.items ≡ replaced.old.items ++ replaced_at entries routes.now (map (λ r. r.prefix) changed.now)) }
{
    for route in changed {
        replaced.push(replaced_route(entries, &route.prefix, routes)?)?;
    }
    Ok(())
}

/// The route to the prefix when so many entries had been taken, where these are the routes now.
pub fn route_then(
    history: &History,
    routes: &RouteDb,
    at: u64,
    prefix: &Prefix,
) -> Result<Option<Route>, NoMemory>
    ensures { IfOk result (λ route. route ≡ route_then history.now.replaced at prefix.now (route_to routes.now prefix.now)) }
{
    match history.first_since(at, prefix) {
        Some(replaced) => replaced.copied_route(),
        None => copied_route(routes, prefix),
    }
}
