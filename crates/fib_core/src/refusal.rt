ghost use Rattle.std.specs.Prelude.{◌≡◌};

use or_base::NoMemory;

/// Why an agent didn't do what it was asked.
#[derive(Clone, Copy, Debug, PartialEq, Eq)]
pub enum AgentRefusal {
    /// It refused the call.
    Fault,
    /// Memory ran out.
    NoMemory,
}

impl From<NoMemory> for AgentRefusal {
    ghost use Rattle.fib_core.specs.declared.refusal.AgentRefusal.TheVariants.{NoMemory};

    ghost from_gives = { λ _ refusal. refusal ≡ NoMemory };

    fn from(_error: NoMemory) -> AgentRefusal {
        AgentRefusal::NoMemory
    }
}
