ghost use Rattle.std.specs.Prelude.{◌≡◌, [], ◌∷◌, ◌++◌, fold, map, is_none, not, IfOk, OnOk, OnErr, option_map, length, ◌==◌, if◌then◌else◌};
ghost use Rattle.std.specs.List.{filter};
ghost use Rattle.ls_routes.specs.Routes.{IsTable, route_to, without_route, with_route, applied, are_same_names, is_same_route, stands_in, delta_between};

use or_base::{Delta, Name, NoMemory, Prefix, Route, Seq};
use std::alloc::Global;
use std::collections::BTreeMap;
use std::marker::Model;

/// Routes by prefix. Contracts see them as a list of pairs, in the order of prefixes.
#[derive(Drop)]
pub struct RouteDb {
    alloc: Global,
    routes: BTreeMap<Prefix, Route>,
}

impl Model for RouteDb {
    ghost use Rattle.std.specs.Prelude.{List};
    ghost use Rattle.or_base.specs.declared.prefix.Prefix.{Prefix};
    ghost use Rattle.or_base.specs.declared.route.Route.{Route};
    ghost use Rattle.ls_routes.specs.Routes.{IsTable};

    ghost Value = { List (Prefix × Route) };

    ghost view = { λ db. db.routes.entries };

    ghost invariant = { λ db. IsTable db.routes.entries };
}

/// The names are the same, in the same order.
fn are_same_names(names: &[Name], others: &[Name]) -> bool
    ensures { result ≡ are_same_names names.now others.now }
{
    names == others
}

/// Two routes to one prefix are the same.
fn is_same_route(route: &Route, other: &Route) -> bool
    ensures { result ≡ is_same_route route.now other.now }
{
    route.cost == other.cost && are_same_names(route.hops.as_slice(), other.hops.as_slice())
}

/// Adds a prefix to which the others have no route.
fn add_gone(del: &mut Vec<Prefix>, prefix: &Prefix, others: &RouteDb) -> Result<(), NoMemory>
    ensures { OnOk result (del.new.items ≡ del.old.items ++ (if is_none (route_to others.now prefix.now) then prefix.now ∷ [] else [])) }
{
    if others.route_of(prefix).is_none() {
        del.push(*prefix)?;
    }
    Ok(())
}

/// The prefixes of these routes to which the others have none.
fn gone(
    alloc: Global,
    routes: &BTreeMap<Prefix, Route>,
    others: &RouteDb,
) -> Result<Vec<Prefix>, NoMemory>
    ensures { IfOk result (λ del. del.items ≡ filter (λ p. is_none (route_to others.now p)) (map (λ e. e.0) routes.now.entries)) }
{
    let mut del = Vec::new(alloc);
    for (prefix, _route) in routes {
        add_gone(&mut del, prefix, others)?;
    }
    Ok(del)
}

/// Adds a route that the others don't have.
fn add_more(set: &mut Vec<Route>, route: &Route, others: &RouteDb) -> Result<(), NoMemory>
    ensures { OnOk result (set.new.items ≡ set.old.items ++ (if not (stands_in (route_to others.now route.now.prefix) route.now) then route.now ∷ [] else [])) }
{
    if !others.has(&route.prefix, route) {
        set.push(route.copied()?)?;
    }
    Ok(())
}

/// The routes that the others don't have.
fn more(
    alloc: Global,
    routes: &BTreeMap<Prefix, Route>,
    others: &RouteDb,
) -> Result<Vec<Route>, NoMemory>
    ensures { IfOk result (λ set. set.items ≡ filter (λ r. not (stands_in (route_to others.now r.prefix) r)) (map (λ e. e.1) routes.now.entries)) }
{
    let mut set = Vec::new(alloc);
    for (_prefix, route) in routes {
        add_more(&mut set, route, others)?;
    }
    Ok(set)
}

/// The routes, in the order of their prefixes.
fn listed(alloc: Global, routes: &BTreeMap<Prefix, Route>) -> Result<Vec<Route>, NoMemory>
    ensures { IfOk result (λ list. list.items ≡ map (λ e. e.1) routes.now.entries) }
{
    let mut list = Vec::new(alloc);
    for (_prefix, route) in routes {
        list.push(route.copied()?)?;
    }
    Ok(list)
}

impl RouteDb {
    /// No routes. It takes no memory.
    pub fn new(alloc: Global) -> RouteDb
        ensures { result ≡ [] }
    {
        RouteDb {
            alloc,
            routes: BTreeMap::new(alloc),
        }
    }

    /// How many routes there are.
    pub fn len(&self) -> usize
        ensures { result ≡ length self.now }
    {
        self.routes.len()
    }

    /// There are no routes.
    pub fn is_empty(&self) -> bool
        ensures { result ≡ (length self.now == 0) }
    {
        self.routes.is_empty()
    }

    /// The routes are a table: their prefixes rise, and each stands under its own prefix. It does nothing.
    pub fn routes_are_a_table(&self)
        ensures { IsTable self.now }
    {
        let _routes = &self.routes;
    }

    /// The route to exactly this prefix; a shorter prefix that contains it isn't looked for. It takes no memory.
    pub fn route_of(&self, prefix: &Prefix) -> Option<&Route>
        ensures { option_map (λ route. route.now) result ≡ route_to self.now prefix.now }
    {
        self.routes.get(prefix)
    }

    /// The route takes the place of the one to its prefix. Out of memory, the routes are as before.
    pub fn set(&mut self, route: Route) -> Result<(), NoMemory>
        ensures ok { OnOk result (self.new ≡ with_route self.old route) }
        ensures err { OnErr result (self.new ≡ self.old) }
    {
        self.routes.insert(route.prefix, route)?;
        Ok(())
    }

    /// The route to the prefix goes, if there is one. It takes no memory.
    pub fn remove(&mut self, prefix: &Prefix)
        ensures { self.new ≡ without_route self.old prefix.now }
    {
        self.routes.remove(prefix);
    }

    /// The deleted prefixes go, and then each route takes the place of the one to its prefix.
    #[tactic(auto, unfolding(crate::specs::Routes::applied))]
    pub fn apply(&mut self, delta: &Delta) -> Result<(), NoMemory>
        ensures { OnOk result (self.new ≡ applied self.old delta.now) }
    {
        self.remove_all(delta.del.as_slice());
        self.set_all(delta.set.as_slice())
    }

    /// The routes to these prefixes go.
    fn remove_all(&mut self, prefixes: &[Prefix])
        ensures { self.new ≡ fold without_route self.old prefixes.now }
    {
        for prefix in prefixes {
            self.remove(prefix);
        }
    }

    /// Each of these routes takes the place of the one to its prefix.
    fn set_all(&mut self, routes: &[Route]) -> Result<(), NoMemory>
        ensures { OnOk result (self.new ≡ fold with_route self.old routes.now) }
    {
        for route in routes {
            self.set(route.copied()?)?;
        }
        Ok(())
    }

    /// The route to this prefix is the same here. It takes no memory.
    pub fn has(&self, prefix: &Prefix, route: &Route) -> bool
        ensures { result ≡ stands_in (route_to self.now prefix.now) route.now }
    {
        match self.route_of(prefix) {
            Some(own) => is_same_route(own, route),
            None => false,
        }
    }

    /// What changes from the old routes to these: the prefixes whose routes go, and the routes that are new or changed.
    #[tactic(auto, unfolding(crate::specs::Routes::delta_between))]
    pub fn delta_from(&self, old: &RouteDb) -> Result<Delta, NoMemory>
        ensures delta { IfOk result (λ delta. delta ≡ delta_between old.now self.now) }
        ensures leads { IfOk result (λ delta. applied old.now delta ≡ self.now) }
    {
        self.routes_are_a_table();
        old.routes_are_a_table();
        let del = gone(self.alloc, &old.routes, self)?;
        let set = more(self.alloc, &self.routes, old)?;
        Ok(Delta {
            del: Seq::from_vec(del),
            set: Seq::from_vec(set),
        })
    }

    /// The routes, in the order of their prefixes.
    pub fn routes(&self) -> Result<Vec<Route>, NoMemory>
        ensures { IfOk result (λ routes. routes.items ≡ map (λ e. e.1) self.now) }
    {
        listed(self.alloc, &self.routes)
    }
}
