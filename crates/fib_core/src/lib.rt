//! Fib programs the routes of a node.
//!
//! It keeps the routes that are wanted, which Decision tells, and has an agent program them. Where the agent refuses a call,
//! Fib is dirty: it asks nothing more of a change, nor anything of later changes, until a tick asks the agent to have exactly
//! the routes that are wanted. `specs/Agent.antt` says what becomes of an agent's table, `specs/Fib.antt` what a turn does.
//! `FibModule` does exactly that, and sends nothing.
//!
//! Any agent keeps to `FibAgent`. `MemAgent` keeps its table in memory, and refuses the calls whose numbers are listed.
//!
//! Laws of all turns (`specs/Law.antt`): the routes wanted are what all changes so far give; Fib is dirty exactly where the
//! last call of its agent was refused, and else its agent has exactly the routes that are wanted; and ticks mend. Each is a
//! function that does nothing.
//!
//! The files: `op` (what an agent is asked), `refusal`, `agent` (the trait), `mem_agent`, `fib` (the module).
#![tactic(auto)]

ghost use Rattle.fib_core.specs.Law.{ListedCallsAreRefused, DirtyByTheLastCall, NoChangeIsLost, FibsHaveTables, CleanIsInStep, TicksMend, EnoughTicksMend};

mod agent;
mod fib;
mod mem_agent;
mod op;
mod refusal;

pub use agent::FibAgent;
pub use fib::FibModule;
pub use mem_agent::MemAgent;
pub use op::FibOp;
pub use refusal::AgentRefusal;

/// An agent in memory refuses exactly the calls whose numbers are listed. It does nothing.
pub fn listed_calls_are_refused()
    ensures { ListedCallsAreRefused }
{}

/// A Fib is dirty exactly where the last call of its agent was refused. It does nothing.
pub fn dirty_by_the_last_call()
    ensures { DirtyByTheLastCall }
{}

/// The routes that a Fib wants are what all changes so far give. It does nothing.
pub fn no_change_is_lost()
    ensures { NoChangeIsLost }
{}

/// The routes that a Fib wants and those that are programmed are tables. It does nothing.
pub fn fibs_have_tables()
    ensures { FibsHaveTables }
{}

/// The agent of a clean Fib has exactly the routes that are wanted. It does nothing.
pub fn clean_is_in_step()
    ensures { CleanIsInStep }
{}

/// A tick mends a Fib whose agent doesn't refuse the next call. It does nothing.
pub fn ticks_mend()
    ensures { TicksMend }
{}

/// One tick more than calls are listed mends in any case. It does nothing.
pub fn enough_ticks_mend()
    ensures { EnoughTicksMend }
{}
