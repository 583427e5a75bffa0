ghost use Rattle.std.specs.Prelude.{◌≡◌};

use or_base::NoMemory;

/// Why a node doesn't write its own value.
#[derive(Clone, Copy, Debug, PartialEq, Eq)]
pub enum SelfFault {
    /// Memory ran out.
    NoMemory,
    /// What is held has this version, the greatest that a value may have, so there is no next one for the node's own.
    Outvoted { version: u64 },
}

impl From<NoMemory> for SelfFault {
    ghost use Rattle.kv_self.specs.declared.fault.SelfFault.TheVariants.{NoMemory};

    ghost from_gives = { λ _ fault. fault ≡ NoMemory };

    fn from(_fault: NoMemory) -> SelfFault {
        SelfFault::NoMemory
    }
}
