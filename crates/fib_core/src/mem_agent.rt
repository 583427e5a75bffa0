ghost use Rattle.std.specs.Prelude.{◌≡◌, [], fold, not, true, false, IfOk, IfErr, OnOk, OnErr};
ghost use Rattle.ls_routes.specs.Routes.{with_route};
ghost use Rattle.fib_core.specs.Agent.{AgentState, new_agent, is_refused, agent_after, table_after, faults_after, IfFault};
ghost use Rattle.fib_core.specs.declared.op.FibOp.{FibOp};

use crate::agent::FibAgent;
use crate::op::FibOp;
use crate::refusal::AgentRefusal;
use ls_routes::RouteDb;
use or_base::{NoMemory, Route};
use std::alloc::Global;
use std::marker::Model;

/// An agent that keeps its table in memory, some of whose calls are refused. Calls are numbered from 1.
#[derive(Drop)]
pub struct MemAgent {
    alloc: Global,
    failing: Vec<u64>,
    calls: u64,
    faults: u64,
    table: RouteDb,
}

impl Model for MemAgent {
    ghost use Rattle.std.specs.Prelude.{◌≤◌};
    ghost use Rattle.fib_core.specs.Agent.{AgentState};

    ghost Value = { AgentState };

    ghost view = { λ a. record { failing = a.failing.items; calls = a.calls; faults = a.faults; table = a.table } };

    ghost invariant = { λ a. a.faults ≤ a.calls };
}

/// The table of these routes: of two to one prefix the later one.
fn table_of(alloc: Global, routes: &[Route]) -> Result<RouteDb, NoMemory>
    ensures { IfOk result (λ table. table ≡ fold with_route [] routes.now) }
{
    let mut table = RouteDb::new(alloc);
    for route in routes {
        table.set(route.copied()?)?;
    }
    Ok(table)
}

/// Does to a table what is asked. Out of memory, it is as before.
fn program(alloc: Global, table: &mut RouteDb, op: &FibOp) -> Result<(), NoMemory>
    ensures ok { OnOk result (table.new ≡ table_after table.old op.now) }
    ensures err { OnErr result (table.new ≡ table.old) }
{
    match op {
        FibOp::Del(prefix) => table.remove(prefix),
        FibOp::Set(route) => table.set(route.copied()?)?,
        FibOp::Whole(routes) => *table = table_of(alloc, routes.as_slice())?,
    }
    Ok(())
}

impl MemAgent {
    /// No route is programmed, and the calls whose numbers, from 1, are listed are refused. It takes no memory.
    pub fn new(failing: Vec<u64>) -> MemAgent
        ensures { result ≡ new_agent failing.items }
    {
        let alloc = *failing.allocator();
        MemAgent {
            alloc,
            failing,
            calls: 0,
            faults: 0,
            table: RouteDb::new(alloc),
        }
    }

    /// The routes that are programmed. It takes no memory.
    pub fn table(&self) -> &RouteDb
        ensures { result.now ≡ self.now.table }
    {
        &self.table
    }

    /// The next call is one of those that are refused.
    fn is_refused(&self) -> bool
        ensures { result ≡ is_refused self.now }
    {
        match self.calls.checked_add(1) {
            Some(call) => self.failing.contains(&call),
            None => false,
        }
    }

    /// Refuses a call.
    fn refuse(&mut self, op: &FibOp)
        requires { is_refused self.old ≡ true }
        ensures { self.new ≡ agent_after self.old op.now }
    {
        self.calls += 1;
        self.faults += 1;
    }

    /// Does what is asked. Out of memory, nothing changed.
    fn perform(&mut self, op: &FibOp) -> Result<(), NoMemory>
        requires { is_refused self.old ≡ false }
        ensures ok { OnOk result (self.new ≡ agent_after self.old op.now) }
        ensures err { OnErr result (self.new ≡ self.old) }
    {
        program(self.alloc, &mut self.table, op)?;
        self.calls = self.calls.saturating_add(1);
        Ok(())
    }
}

impl FibAgent for MemAgent {
    ghost use Rattle.fib_core.specs.Agent.{AgentState};

    ghost State = { AgentState };

    ghost state = { λ agent. agent };

    ghost table = { λ agent. agent.table };

    ghost faults = { λ agent. agent.faults };

    ghost step = { agent_after };

    /// It refuses exactly the calls whose numbers are listed.
    fn apply(&mut self, op: &FibOp) -> Result<(), AgentRefusal>
        ensures done { OnOk result (self.new.table ≡ table_after self.old.table op.now) }
        ensures kept { OnErr result (self.new.table ≡ self.old.table) }
        ensures no_fault { OnOk result (self.new.faults ≡ self.old.faults) }
        ensures cause { IfErr result (λ refusal. self.new.faults ≡ faults_after refusal self.old.faults) }
        ensures step { OnOk result (self.new ≡ agent_after self.old op.now) }
        ensures fault_step { IfErr result (λ refusal. IfFault refusal (self.new ≡ agent_after self.old op.now)) }
        ensures listed { IfErr result (λ refusal. IfFault refusal (is_refused self.old ≡ true)) }
        ensures others { OnOk result (is_refused self.old ≡ false) }
    {
        if self.is_refused() {
            self.refuse(op);
            return Err(AgentRefusal::Fault);
        }
        self.perform(op)?;
        Ok(())
    }
}
