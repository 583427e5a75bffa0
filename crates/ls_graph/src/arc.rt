ghost use Rattle.std.specs.Prelude.{◌≡◌, IfOk};

use or_base::{Name, NoMemory};

/// A two-way link in one direction.
#[derive(Clone, Drop)]
pub struct Arc {
    /// The node that it leaves.
    pub from: Name,
    /// The interface there.
    pub own_if: Name,
    /// The node that it leads to.
    pub to: Name,
    /// The interface there.
    pub other_if: Name,
    /// 1 to `MOST_METRIC`, as the node that it leaves reports it.
    pub metric: u32,
}

impl Arc {
    /// An equal arc.
    pub fn copied(&self) -> Result<Self, NoMemory>
        ensures { IfOk result (λ copy. copy ≡ self.now) }
    {
        Ok(self.clone()?)
    }
}
