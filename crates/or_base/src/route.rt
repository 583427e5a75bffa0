ghost use Rattle.std.specs.Prelude.{◌≡◌, IfOk};

use crate::memory::{Copied, NoMemory};
use crate::prefix::Prefix;
use crate::seq::Seq;
use crate::text::Name;

/// A route to a prefix over all least-cost paths.
#[derive(Clone, Drop)]
pub struct Route {
    pub prefix: Prefix,
    /// The sum of the metrics of a least-cost path.
    pub cost: u64,
    /// The node's own interfaces by which least-cost paths begin, in byte order.
    pub hops: Seq<Name>,
}

impl Route {
    /// An equal route.
    pub fn copied(&self) -> Result<Self, NoMemory>
        ensures { IfOk result (λ copy. copy ≡ self.now) }
    {
        Ok(self.clone()?)
    }
}

impl Copied for Route {
    fn copied(&self) -> Result<Self, NoMemory> {
        Route::copied(self)
    }
}

/// What changed in a table of routes: the prefixes whose routes go, and then the routes that are new or changed, both in
/// prefix order.
#[derive(Clone, Drop)]
pub struct Delta {
    pub del: Seq<Prefix>,
    pub set: Seq<Route>,
}

impl Delta {
    /// An equal delta.
    pub fn copied(&self) -> Result<Self, NoMemory>
        ensures { IfOk result (λ copy. copy ≡ self.now) }
    {
        Ok(self.clone()?)
    }
}

impl Copied for Delta {
    fn copied(&self) -> Result<Self, NoMemory> {
        Delta::copied(self)
    }
}
