use or_base::{Prefix, Route, Seq};

/// What an agent is asked to do.
#[derive(Drop)]
pub enum FibOp {
    /// Let there be no route to this prefix.
    Del(Prefix),
    /// Let this be the route to its prefix.
    Set(Route),
    /// Let these be all routes.
    Whole(Seq<Route>),
}
