ghost use Rattle.std.specs.Prelude.{◌≡◌, ℕ, List, OnOk, OnErr, IfErr};
ghost use Rattle.or_base.specs.declared.prefix.Prefix.{Prefix};
ghost use Rattle.or_base.specs.declared.route.Route.{Route};
ghost use Rattle.fib_core.specs.Agent.{table_after, faults_after, IfFault};
ghost use Rattle.fib_core.specs.declared.op.FibOp.{FibOp};

use crate::op::FibOp;
use crate::refusal::AgentRefusal;

/// What programs the routes of a node into its forwarding table.
pub trait FibAgent {
    /// What its calls depend on: plain data.
    ghost State: { Type 0 };

    /// The state that it is in.
    ghost state: { Self → State };

    /// The routes that are programmed, with their prefixes.
    ghost table: { State → List (Prefix × Route) };

    /// How many calls it refused.
    ghost faults: { State → ℕ };

    /// One call, done or refused: from the state and what is asked to the next state.
    ghost step: { State → FibOp → State };

    /// One call. The answer is Fault exactly where the count of faults rises, and then by one. Out of memory, neither the
    /// table nor the count changes, and of the rest of the state nothing is said.
    fn apply(&mut self, op: &FibOp) -> Result<(), AgentRefusal>
        ensures done { OnOk result (table (state self.new) ≡ table_after (table (state self.old)) op.now) }
        ensures kept { OnErr result (table (state self.new) ≡ table (state self.old)) }
        ensures no_fault { OnOk result (faults (state self.new) ≡ faults (state self.old)) }
        ensures cause { IfErr result (λ refusal. faults (state self.new) ≡ faults_after refusal (faults (state self.old))) }
        ensures step { OnOk result (state self.new ≡ step (state self.old) op.now) }
        ensures fault_step { IfErr result (λ refusal. IfFault refusal (state self.new ≡ step (state self.old) op.now)) };
}
