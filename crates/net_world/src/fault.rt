ghost use Rattle.std.specs.Prelude.{◌≡◌};

use net_record::Record;
use or_base::NoMemory;

/// Why a run by rounds came to no record of all its settles.
#[derive(Drop)]
pub enum RunFault {
    /// An item still waits after the last round of the phase that settle number `settle` (from 1) ends. The record is
    /// that of the run so far.
    Unsettled { settle: u64, done: Record },
    /// Memory ran out.
    NoMemory,
}

impl From<NoMemory> for RunFault {
    ghost use Rattle.net_world.specs.declared.fault.RunFault.TheVariants.{NoMemory};

    ghost from_gives = { λ _ fault. fault ≡ NoMemory };

    fn from(_fault: NoMemory) -> RunFault {
        RunFault::NoMemory
    }
}

/// Why a run under given turns came to no record of all its settles.
#[derive(Clone, Copy, Debug, PartialEq, Eq)]
pub enum ReplayFault {
    /// The turn with this index (from 0) isn't legal, comes after the last settle, or is missing before it.
    BadTurn { index: u64 },
    /// The budget is exceeded in the phase that settle number `settle` (from 1) ends, or by that settle.
    Unsettled { settle: u64 },
    /// Memory ran out.
    NoMemory,
}

impl From<NoMemory> for ReplayFault {
    ghost use Rattle.net_world.specs.declared.fault.ReplayFault.TheVariants.{NoMemory};

    ghost from_gives = { λ _ fault. fault ≡ NoMemory };

    fn from(_fault: NoMemory) -> ReplayFault {
        ReplayFault::NoMemory
    }
}
